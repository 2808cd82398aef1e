//! What a world in memory, and whole reads over it, refuse is no want of memory. That calls fail and move bytes as
//! they should is said by clauses; only that the answer is not `NoMemory` is not. Files are created and written as a
//! tool would do it.

use crate::support::same;
use std::alloc::Global;
use std::process::Abort;
use vio::{
    Created, ERRORS, Failed, INPUT, MemWorld, OUTPUT, WholeFault, World, WorldFault, read_whole,
    write_all,
};

/// The bytes of the files and pieces below.
const TEXT: &[u8] = b"abcde";

/// The bytes of another file.
const OTHER: &[u8] = b"xyz";

/// A world in which a file of this name has these bytes.
fn world_with(rt: &impl Abort, alloc: Global, name: &str, bytes: &[u8]) -> MemWorld {
    let mut world = MemWorld::new(alloc).expect(rt, "memory");
    world.file(name, bytes).expect(rt, "memory");
    world
}

/// The most bytes that are read of the text, what is read, and why it isn't.
const LIMITS: [(u64, &[u8], Option<WholeFault>); 5] = [
    (0, b"", Some(WholeFault::TooLarge)),
    (4, b"", Some(WholeFault::TooLarge)),
    (5, TEXT, None),
    (6, TEXT, None),
    (u64::MAX, TEXT, None),
];

/// What a whole read gives, or nothing, and why it gives nothing.
fn read_all(
    alloc: Global,
    world: &mut MemWorld,
    handle: u32,
    limit: u64,
) -> (Vec<u8>, Option<WholeFault>) {
    match read_whole(alloc, world, handle, limit) {
        Ok(bytes) => (bytes, None),
        Err(fault) => (Vec::new(alloc), Some(fault)),
    }
}

#[test]
fn a_text_over_the_limit_is_too_large(rt: HostRuntime) {
    let alloc = rt.alloc();
    for (limit, want, refused) in LIMITS {
        let mut world = world_with(&rt, alloc, "-", TEXT);
        let (bytes, fault) = read_all(alloc, &mut world, INPUT, limit);
        same(
            &rt,
            (limit, bytes.as_slice(), fault),
            (limit, want, refused),
        );
    }
}

#[test]
fn standard_input_is_told_whole_whatever_was_read_of_it(rt: HostRuntime) {
    let mut world = MemWorld::new(rt.alloc()).expect(&rt, "memory");
    same(&rt, world.content(INPUT).is_empty(), true);
    world.file("-", TEXT).expect(&rt, "memory");
    same(&rt, world.content(INPUT), TEXT);
    let mut buf = [0; 3];
    for read in [3, 2, 0] {
        same(&rt, world.read(INPUT, &mut buf), Ok(read));
        same(&rt, world.content(INPUT), TEXT);
    }
}

#[test]
fn other_names_and_handles_are_refused(rt: HostRuntime) {
    let mut world = world_with(&rt, rt.alloc(), "f", TEXT);
    same(&rt, world.open("f"), Ok(3));
    same(&rt, world.open("g"), Err(WorldFault::Failed));
    let mut buf = [0; 8];
    for h in [OUTPUT, ERRORS, 5] {
        same(&rt, (h, world.read(h, &mut buf)), (h, Err(Failed)));
    }
    for h in [INPUT, 3, 5] {
        let refused = Err(WorldFault::Failed);
        same(&rt, (h, world.write(h, TEXT)), (h, refused));
    }
}

/// How a file is created: whether one is there, whether to append, and what it holds after a write.
struct Creation {
    what: &'static str,
    is_there: bool,
    append: bool,
    after: &'static [u8],
}

const CREATIONS: [Creation; 4] = [
    Creation {
        what: "no file, emptied",
        is_there: false,
        append: false,
        after: b"abcde",
    },
    Creation {
        what: "no file, appended to",
        is_there: false,
        append: true,
        after: b"abcde",
    },
    Creation {
        what: "a file, emptied",
        is_there: true,
        append: false,
        after: b"abcde",
    },
    Creation {
        what: "a file, appended to",
        is_there: true,
        append: true,
        after: b"xyzabcde",
    },
];

/// Creates a file as the case says, writes to it, and looks at it and at another.
fn expect_creation(rt: &impl Abort, alloc: Global, case: &Creation) {
    let mut world = world_with(rt, alloc, "g", OTHER);
    if case.is_there {
        world.file("f", OTHER).expect(rt, "memory");
    }
    world.piece(2);
    let want = Created {
        handle: 3,
        empty: !(case.is_there && case.append),
    };
    let created = world.create("f", case.append);
    same(rt, (case.what, created), (case.what, Ok(want)));
    same(rt, write_all(&mut world, 3, TEXT), Ok(()));
    same(rt, (case.what, world.content(3)), (case.what, case.after));
    same(rt, (case.what, world.open("g")), (case.what, Ok(4)));
    same(rt, world.content(4), OTHER);
}

#[test]
fn a_created_file_gains_each_piece(rt: HostRuntime) {
    for case in &CREATIONS {
        expect_creation(&rt, rt.alloc(), case);
    }
}

#[test]
fn a_created_file_is_not_read_and_an_opened_one_not_written(rt: HostRuntime) {
    let mut world = world_with(&rt, rt.alloc(), "f", TEXT);
    let created = Created {
        handle: 3,
        empty: true,
    };
    same(&rt, world.create("g", false), Ok(created));
    same(&rt, world.open("f"), Ok(4));
    let mut buf = [0; 8];
    same(&rt, world.read(3, &mut buf), Err(Failed));
    same(&rt, world.write(4, TEXT), Err(WorldFault::Failed));
}

#[test]
fn a_creation_that_fails_changes_no_file(rt: HostRuntime) {
    let mut world = world_with(&rt, rt.alloc(), "f", TEXT);
    world.fail(1).expect(&rt, "memory");
    same(&rt, world.create("f", false), Err(WorldFault::Failed));
    same(&rt, world.open("f"), Ok(3));
    same(&rt, world.content(3), TEXT);
}

#[test]
fn an_opened_file_keeps_its_bytes_while_its_name_is_emptied(rt: HostRuntime) {
    let alloc = rt.alloc();
    let mut world = world_with(&rt, alloc, "f", TEXT);
    same(&rt, world.open("f"), Ok(3));
    let created = Created {
        handle: 4,
        empty: true,
    };
    same(&rt, world.create("f", false), Ok(created));
    same(&rt, world.content(3).is_empty(), true);
    let (bytes, fault) = read_all(alloc, &mut world, 3, 8);
    same(&rt, (bytes.as_slice(), fault), (TEXT, None));
}
