// The data section of an image that a handle fits, and the refusals before a value is looked at.
#![tactic(auto)]

ghost use Rattle.std.specs.Prelude.{◌≡◌, true, ◌+◌, length};
ghost use Rattle.handle.specs.Handle.{fits_of};
ghost use Rattle.section.specs.Section.{section_of, barred_of, section_at};

use handle::{Handle, fits};
use refusal::Refusal;

// It ends where the marker starts.
#[tactic(auto, using(crate::proofs::SectionLaws::marked))]
pub fn data_section<'a>(image: &'a [u8], h: Handle) -> &'a [u8]
    requires { fits_of h (length image.now) ≡ true }
    ensures result_value { result.now ≡ section_of image.now h }
    ensures ref_ptr_value { result.ref_ptr ≡ (image.entry.ref_ptr.0, image.entry.ref_ptr.1 + h.base) }
{
    let from = h.base as usize;
    let end = (h.meta - 14) as usize;
    &image[from..end]
}

// Whether a place may be looked at.
#[tactic(auto, using(crate::proofs::SectionLaws::marked), unfolding(crate::specs::Section::barred_of))]
pub fn gate(h: Handle, n: usize, place: usize) -> Result<(), Refusal>
    ensures { result ≡ barred_of h n place }
{
    if !fits(h, n as u64) {
        return Err(Refusal::Handle);
    }
    if h.meta - 14 - h.base <= place as u64 {
        return Err(Refusal::Offset);
    }
    Ok(())
}

// The data section, where a place in it may be looked at.
#[tactic(auto, using(crate::proofs::SectionLaws::free))]
pub fn section_at<'a>(image: &'a [u8], h: Handle, place: usize) -> Result<&'a [u8], Refusal>
    ensures { result ≡ section_at image.entry h place }
{
    gate(h, image.len(), place)?;
    Ok(data_section(image, h))
}
