// The tones as one block of letters: twelve rows of a vowel and its five toned letters. A letter is found by its place, and a
// place by its letter. Written by tools/tones.py.
#![tactic(auto)]

ghost use Rattle.std.specs.Prelude.{◌≡◌};
ghost use Rattle.p1_tone_block.specs.Mirror.{letter_at, letter_place};

// The places of a row: the vowel's, and one for each tone.
pub const WIDTH: u8 = 6;

const BLOCK: &[u16; 72] = &[
    // a á à ả ã ạ
    0x61, 0xe1, 0xe0, 0x1ea3, 0xe3, 0x1ea1,
    // ă ắ ằ ẳ ẵ ặ
    0x103, 0x1eaf, 0x1eb1, 0x1eb3, 0x1eb5, 0x1eb7,
    // â ấ ầ ẩ ẫ ậ
    0xe2, 0x1ea5, 0x1ea7, 0x1ea9, 0x1eab, 0x1ead,
    // e é è ẻ ẽ ẹ
    0x65, 0xe9, 0xe8, 0x1ebb, 0x1ebd, 0x1eb9,
    // ê ế ề ể ễ ệ
    0xea, 0x1ebf, 0x1ec1, 0x1ec3, 0x1ec5, 0x1ec7,
    // i í ì ỉ ĩ ị
    0x69, 0xed, 0xec, 0x1ec9, 0x129, 0x1ecb,
    // o ó ò ỏ õ ọ
    0x6f, 0xf3, 0xf2, 0x1ecf, 0xf5, 0x1ecd,
    // ô ố ồ ổ ỗ ộ
    0xf4, 0x1ed1, 0x1ed3, 0x1ed5, 0x1ed7, 0x1ed9,
    // ơ ớ ờ ở ỡ ợ
    0x1a1, 0x1edb, 0x1edd, 0x1edf, 0x1ee1, 0x1ee3,
    // u ú ù ủ ũ ụ
    0x75, 0xfa, 0xf9, 0x1ee7, 0x169, 0x1ee5,
    // ư ứ ừ ử ữ ự
    0x1b0, 0x1ee9, 0x1eeb, 0x1eed, 0x1eef, 0x1ef1,
    // y ý ỳ ỷ ỹ ỵ
    0x79, 0xfd, 0x1ef3, 0x1ef7, 0x1ef9, 0x1ef5,
];

// By slot, the place of the letter of the block that has it, 0 where none has it.
const PLACES: &[u8; 128] = &[
    4, 33, 0, 0, 0, 0, 35, 0, 54, 0, 41, 20, 0, 0, 19, 39, 24, 66, 0, 43, 32, 0, 0, 31, 44, 0, 0,
    0, 45, 0, 34, 0, 0, 46, 38, 0, 37, 47, 42, 5, 0, 40, 49, 0, 3, 48, 50, 58, 13, 0, 56, 51, 55,
    14, 0, 0, 52, 15, 0, 67, 53, 0, 16, 0, 0, 59, 17, 0, 0, 57, 0, 7, 6, 0, 61, 8, 0, 0, 62, 60, 9,
    0, 0, 63, 10, 0, 0, 64, 0, 11, 0, 0, 65, 23, 0, 0, 68, 0, 21, 0, 18, 71, 22, 0, 0, 69, 0, 25,
    0, 30, 70, 26, 0, 0, 0, 0, 27, 0, 0, 0, 28, 2, 36, 0, 1, 29, 12, 0,
];

// The letter at a place, 0 past the end.
pub fn letter_at(place: u8) -> u16
    ensures { result ≡ letter_at place }
{
    BLOCK.get(usize::from(place)).copied().unwrap_or(0)
}

// The place of a letter of the block, each of which has a slot of its own. What is no letter of the block has a slot too: the
// letter at the place tells.
pub fn letter_place(x: u32) -> u8
    ensures { result ≡ letter_place x }
{
    let slot = x % 8192 * 289 / 128 % 128;
    PLACES[slot as usize]
}
