//! The counters: their names, and what each counts.

ghost use Rattle.std.specs.Prelude.{◌≡◌, ◌<◌};
ghost use Rattle.counter_segments.specs.Sums.{counter_count};
ghost use Rattle.vsl_stat.specs.Glob.{is_selected};
ghost use Rattle.vsl_stat.specs.Report as spec;

use crate::globs::Globs;

/// The names of the counters, in the order of their numbers, each with what it counts.
static COUNTERS: [(&str, &str); 21] = [
    ("MAIN.sess_conn", "Sessions accepted"),
    ("MAIN.client_req", "Good client requests received"),
    ("MAIN.cache_hit", "Cache hits"),
    ("MAIN.cache_hitpass", "Cache hits for pass"),
    ("MAIN.cache_hitmiss", "Cache hits for miss"),
    ("MAIN.cache_miss", "Cache misses"),
    ("MAIN.backend_conn", "Backend conn. success"),
    ("MAIN.backend_req", "Backend requests made"),
    ("MAIN.fetch_failed", "Fetch failed (all causes)"),
    ("MAIN.s_pipe", "Total pipe sessions seen"),
    ("MAIN.s_pass", "Total pass-ed requests seen"),
    ("MAIN.s_synth", "Total synthetic responses made"),
    ("MAIN.s_req_hdrbytes", "Request header bytes"),
    ("MAIN.s_req_bodybytes", "Request body bytes"),
    ("MAIN.s_resp_hdrbytes", "Response header bytes"),
    ("MAIN.s_resp_bodybytes", "Response body bytes"),
    ("MAIN.shm_records", "SHM records"),
    ("MAIN.shm_writes", "SHM writes"),
    ("MAIN.shm_flushes", "SHM flushes due to overflow"),
    ("MAIN.shm_cont", "SHM MTX contention"),
    ("MAIN.shm_cycles", "SHM cycles through buffer"),
];

/// The name of a counter, as it is printed and selected.
pub(crate) fn name_of(which: u32) -> &'static str
    requires { which < counter_count }
    ensures { result.now ≡ spec.name_of which }
{
    COUNTERS[which as usize].0
}

/// What a counter counts, in words.
pub(crate) fn description_of(which: u32) -> &'static str
    requires { which < counter_count }
    ensures { result.now ≡ (spec.counter_of which).description }
{
    COUNTERS[which as usize].1
}

/// How a counter is to be shown: `B` for a count of bytes, `i` for any other.
pub(crate) fn format_of(which: u32) -> &'static str
    ensures { result.now ≡ spec.format_of which }
{
    if 12 <= which && which <= 15 { "B" } else { "i" }
}

/// Whether a counter is selected.
pub(crate) fn is_shown(which: u32, globs: &Globs) -> bool
    requires { which < counter_count }
    ensures { result ≡ is_selected globs.now (spec.name_of which) }
{
    globs.selects(name_of(which).as_bytes())
}
