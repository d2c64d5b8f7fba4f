// What a call can be refused for (document 01; document 02 for 23 to 25, the start place and the counts of slices), and its number.
#![tactic(auto)]

ghost use Rattle.std.specs.Prelude.{◌≡◌};
ghost use Rattle.refusals.specs.Numbers.{refusal_number, answer_number};

// The refusals, in the order of their numbers.
#[derive(Clone, Copy)]
pub enum Refusal {
    // 1: B, S or P is not allowed; at formatting also a count of slices, or other than one a key.
    BadGeometry,
    // 2: the device's length is not the geometry's.
    DeviceLength,
    // 3: the key is not 32 bytes.
    KeyLength,
    // 4: the map table is not 15 × P entries, or the owner table not P.
    TableLength,
    // 5: the permutation is not P long, or does not name each slice once.
    BadPermutation,
    // 6: no key cell opens.
    NoCell,
    // 7: the tag of a needed header is wrong.
    HeaderTag,
    // 8: N in a header is 0 or above P, or S differs.
    HeaderGeometry,
    // 9: a map entry is neither the unmapped mark nor below P, or stands at or past its volume's N and is not the mark.
    BadEntry,
    // 10: a slice is mapped twice.
    SliceTwice,
    // 11: the volume is above the opened one.
    VolumeAbove,
    // 12: the block address, or the logical slice to release, is at or past the volume's end.
    AddressAbove,
    // 13: a buffer, text, IV, tag or associated data of wrong length.
    WrongLength,
    // 14: a line of the walk program is malformed.
    MalformedLine,
    // 15: the tag differs (GCM opening called alone).
    TagDiffers,
    // 20: the session is closed, or its geometry, k, start place or an N of volumes 0 to k is not allowed.
    NotOpen,
    // 21: the tape has fewer bytes left than the call needs, or its position is past the end.
    TapeShort,
    // 22: no slice that the permutation names from the start place on is free.
    NoFreeSlice,
    // 23: no key, or more than 15 (formatting).
    KeyCount,
    // 24: a key opens a cell below its own (formatting).
    LowerCell,
    // 25: the logical slice is unmapped (release).
    SliceUnmapped,
}

// The document's number of a refusal.
impl From<Refusal> for u8 {
    ghost from_gives = { λ r n. n ≡ refusal_number r };

    fn from(r: Refusal) -> u8 {
        match r {
            Refusal::BadGeometry => 1,
            Refusal::DeviceLength => 2,
            Refusal::KeyLength => 3,
            Refusal::TableLength => 4,
            Refusal::BadPermutation => 5,
            Refusal::NoCell => 6,
            Refusal::HeaderTag => 7,
            Refusal::HeaderGeometry => 8,
            Refusal::BadEntry => 9,
            Refusal::SliceTwice => 10,
            Refusal::VolumeAbove => 11,
            Refusal::AddressAbove => 12,
            Refusal::WrongLength => 13,
            Refusal::MalformedLine => 14,
            Refusal::TagDiffers => 15,
            Refusal::NotOpen => 20,
            Refusal::TapeShort => 21,
            Refusal::NoFreeSlice => 22,
            Refusal::KeyCount => 23,
            Refusal::LowerCell => 24,
            Refusal::SliceUnmapped => 25,
        }
    }
}

// The number of an answer, 0 where the call was served.
pub fn answer_number<T: Copy>(a: Result<T, Refusal>) -> u8
    ensures { result ≡ answer_number a }
{
    match a {
        Ok(_) => 0,
        Err(r) => u8::from(r),
    }
}
