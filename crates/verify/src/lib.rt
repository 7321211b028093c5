// Verification of a whole image, with lent scratch.
#![tactic(auto)]

ghost use Rattle.std.specs.Prelude.{◌≡◌, true, ◌-◌, ◌≤◌, length, replicate};
ghost use Rattle.handle.specs.Handle.{fits_of, image_bound};
ghost use Rattle.graph.specs.Words.{needed};
ghost use Rattle.sweep.specs.Sweep.{metadata_accepted};
ghost use Rattle.verify.specs.Verify.{words_of, separator_of, all_zero, database_of, verdict_of, scratch_words_of, out, metadata_words, database_words_of, verdict_words_of, verify_of};

use handle::Handle;
use marks::{clear, count};
use opening::{Reader, open};
use recording::record_networks;
use refusal::Refusal;
use section::data_section;
use sweep::{verify_data_section, verify_metadata_graph};

// Image and handle stay two parameters here, since section, walk and recording take them so, and their callers have them apart.
fn words_of(image: &[u8], h: Handle) -> usize
    requires { fits_of h (length image.now) ≡ true }
    ensures { result ≡ words_of image.now h }
{
    let section = (h.meta - 14 - h.base) as usize;
    let start = h.meta as usize;
    (section.max(image.len() - start) + 63) / 64 * 2
}

// The 16 bytes before the data start.
#[tactic(auto, unfolding(crate::specs::Verify::all_zero))]
fn is_separated(image: &[u8], base: usize) -> bool
    requires { (16 ≤ base) × (base ≤ length image.now) }
    ensures { result ≡ all_zero (separator_of image.now base) }
{
    image[base - 16..base].iter().all(|byte| *byte == 0)
}

fn is_metadata_accepted(metadata: &[u8], bits: &mut [u64]) -> bool
    requires bits_value { bits.old ≡ replicate (length bits.old) 0 }
    requires metadata_in_bounds { (needed (length metadata.now) ≤ length bits.old) × (length metadata.now ≤ image_bound) }
    ensures value { result ≡ metadata_accepted metadata.now }
    ensures bits_after { bits.new ≡ metadata_words metadata.now bits.old }
{
    verify_metadata_graph(metadata, bits).is_some()
}

// The number of distinct offsets. They are counted before the sweep, which changes their states.
fn verify_database(image: &[u8], h: Handle, bits: &mut [u64], budget: u64) -> Result<u64, Refusal>
    requires image_value { fits_of h (length image.now) ≡ true }
    requires bits_value { bits.old ≡ replicate (words_of image.now h) 0 }
    ensures value { result ≡ database_of image.now h budget }
    ensures bits_after { bits.new ≡ database_words_of image.now h budget bits.old }
{
    record_networks(image, h, bits, budget)?;
    if !is_separated(image, h.base as usize) {
        return Err(Refusal::Separator);
    }
    let offsets = count(bits, bits.len() / 2);
    let section = data_section(image, h);
    match verify_data_section(section, bits) {
        Some(_) => Ok(offsets),
        None => Err(Refusal::Malformed),
    }
}

// The verdict, over words that are 0. What it leaves in them is cleared by its caller.
fn verdict(image: &[u8], reader: Reader, bits: &mut [u64], budget: u64) -> Result<u64, Refusal>
    requires image_value { fits_of reader.handle (length image.now) ≡ true }
    requires bits_value { bits.old ≡ replicate (words_of image.now reader.handle) 0 }
    ensures value { result ≡ verdict_of image.now reader budget }
    ensures bits_after { bits.new ≡ verdict_words_of image.now reader budget bits.old }
{
    let h = reader.handle;
    let m = reader.metadata;
    let start = h.meta as usize;
    if !is_metadata_accepted(&image[start..], bits) {
        return Err(Refusal::Malformed);
    }
    if m.database.size == 0 {
        return Err(Refusal::NoDatabaseType);
    }
    if m.description.size == 0 {
        return Err(Refusal::NoDescription);
    }
    clear(bits, bits.len());
    verify_database(image, h, bits, budget)
}

// How many words of scratch an image needs.
#[tactic(auto, unfolding(crate::specs::Verify::scratch_words_of))]
pub fn scratch_words(image: &[u8]) -> Result<u64, Refusal>
    ensures { result ≡ scratch_words_of image.now }
{
    let reader = open(image)?;
    Ok(words_of(image, reader.handle) as u64)
}

// The number of distinct offsets of an image that is accepted, or the first refusal.
pub fn verify(image: &[u8], scratch: &mut [u64], budget: u64) -> Result<u64, Refusal>
    ensures { out result scratch.new ≡ verify_of image.now scratch.old budget }
{
    let reader = open(image)?;
    let need = words_of(image, reader.handle);
    if scratch.len() < need {
        return Err(Refusal::Scratch);
    }
    clear(scratch, need);
    let verified = verdict(image, reader, &mut scratch[..need], budget);
    clear(scratch, need); // also after a refusal
    verified
}
