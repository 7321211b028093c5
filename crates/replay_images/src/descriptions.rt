// The descriptions of an image by their languages. The crate keeps them in a map: of a language that stands twice, the last.
use maxminddb::description_language;

// The last of so many descriptions that is in a language.
pub fn last_in(image: &[u8], count: usize, language: &[u8]) -> Option<usize> {
    (0..count)
        .rev()
        .find(|at| description_language(image, *at) == language)
}

// How many languages so many descriptions are in: each is counted where it stands last.
pub fn languages_of(image: &[u8], count: usize) -> usize {
    (0..count)
        .filter(|at| last_in(image, count, description_language(image, *at)) == Some(*at))
        .count()
}
