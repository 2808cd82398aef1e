//! The newest node of each VXID.

ghost use Rattle.std.specs.Prelude.{◌≡◌, ℕ, Some, nat_eq};
ghost use Rattle.std.specs.HashMap.{get};

use log_model::NoMemory;
use std::alloc::Global;
use std::collections::HashMap;
use vsl_record::Vxid;

/// Of each VXID, the place of the node that began last, where one is pending. What was told last is kept beside the map,
/// as most records are of the VXID of the one before.
#[derive(Drop)]
pub struct Index {
    pub places: HashMap<Vxid, usize>,
    last_vxid: Vxid,
    last_at: Option<usize>,
    ghost told: { (at : ℕ) → last_at ≡ Some at → get nat_eq places last_vxid ≡ Some at },
}

impl Index {
    ghost use Rattle.std.specs.Prelude.{None, OnOk};
    ghost use Rattle.txn_groups.specs.inside.Indexed.{newest_in, IsUpdated};

    pub fn new(alloc: Global) -> Index
        ensures { (vxid : ℕ) → newest_in result vxid ≡ None }
    {
        Index {
            places: HashMap::new(alloc),
            last_vxid: 0,
            last_at: None,
        }
    }

    /// The place of the newest node of a VXID.
    pub fn newest(&self, vxid: Vxid) -> Option<usize>
        ensures { result ≡ newest_in self.now vxid }
    {
        if self.last_vxid == vxid && self.last_at.is_some() {
            return self.last_at;
        }
        self.places.get(&vxid).copied()
    }

    /// The same, which is kept until another is asked for.
    pub fn seek(&mut self, vxid: Vxid) -> Option<usize>
        ensures newest { result ≡ newest_in self.old vxid }
        ensures same { self.new.places ≡ self.old.places }
    {
        let found = self.newest(vxid);
        self.last_at = None;
        self.last_vxid = vxid;
        self.last_at = found;
        found
    }

    /// The newest node of a VXID is at this place from now on.
    pub fn put(&mut self, vxid: Vxid, at: usize) -> Result<(), NoMemory>
        ensures { OnOk result (IsUpdated self.old self.new vxid (Some at)) }
    {
        self.last_at = None;
        self.places.insert(vxid, at)?;
        self.last_vxid = vxid;
        self.last_at = Some(at);
        Ok(())
    }

    /// No node of a VXID is left.
    pub fn clear(&mut self, vxid: Vxid)
        ensures { IsUpdated self.old self.new vxid None }
    {
        self.last_at = None;
        let _ = self.places.remove(&vxid);
    }
}
