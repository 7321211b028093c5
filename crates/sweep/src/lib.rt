// The graphs of whole sections: all places that the tree recorded, and the metadata's one value.
#![tactic(auto)]

ghost use Rattle.std.specs.Prelude.{◌≡◌, ◌^◌, ◌≤◌, ◌<◌, length};
ghost use Rattle.graph.specs.Graph.{res, verify_at};
ghost use Rattle.graph.specs.Words.{on_words, needed};
ghost use Rattle.sweep.specs.Sweep.{sweep_at, data_at, metadata_at};

use graph::{Skipped, skip_value_for_verification};
use marks::{Mark, next_marked, state};

// The recorded places, lowest first, with one allowance of work.
fn verify_recorded(s: &[u8], bits: &mut [u64], work: usize) -> Option<Skipped>
    requires { (needed (length s.now) ≤ length bits.old) × (length s.now < 2 ^ 60) }
    ensures { res result bits.new ≡ sweep_at on_words (verify_at on_words s.now) (length s.now) 0 work bits.old }
{
    let mut left = work;
    let mut t = 0;
    // Not a range: how far the next step goes is for the words to say, after each value has changed them.
    while t < s.len() {
        if state(bits, t) == Mark::Recorded {
            let past = skip_value_for_verification(s, bits, t, left)?;
            left = past.work;
        }
        t = next_marked(bits, t).min(s.len());
    }
    Some(Skipped {
        next: t,
        work: left,
    })
}

pub fn verify_data_section(s: &[u8], bits: &mut [u64]) -> Option<Skipped>
    requires { (needed (length s.now) ≤ length bits.old) × (length s.now < 2 ^ 60) }
    ensures { res result bits.new ≡ data_at on_words s.now bits.old }
{
    verify_recorded(s, bits, 8 * s.len())
}

pub fn verify_metadata_graph(s: &[u8], bits: &mut [u64]) -> Option<Skipped>
    requires { (needed (length s.now) ≤ length bits.old) × (length s.now < 2 ^ 60) }
    ensures { res result bits.new ≡ metadata_at on_words s.now bits.old }
{
    skip_value_for_verification(s, bits, 0, 8 * s.len())
}
