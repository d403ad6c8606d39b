// What a frame is judged by, beside its bytes.
use types::TypeLibrary;

// The types, the version of the frame, whether required fields have to be there, and whether the frame is newer than the dictionary. The last two are facts of their own, beside no value.
#[derive(Drop)]
pub struct Rules<'a, L: TypeLibrary> {
    pub library: &'a L,
    pub version: u16,
    pub closed: bool,
    pub newer: bool,
}
