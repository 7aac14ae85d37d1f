// The known texts as words, each padded to 32 bytes: the 14 known labels, and after them the known names.
ghost use Rattle.std.specs.Prelude.{◌≡◌, ◌&&◌, ◌<◌, [], eqb, get_or};
ghost use Rattle.labels.specs.Padded.{field_word, known_texts, rest_is};

// The first name among the known texts.
pub const FIRST_NAME: usize = 14;

// Eight blanks.
const BLANKS: u64 = 0x2020_2020_2020_2020;

// The second eight bytes of text k.
fn second_word(k: usize) -> u64
    requires { k < 24 }
    ensures { result ≡ field_word (get_or known_texts k []) 1 }
{
    match k {
        0 => 0x6973_7265_5679_7261, // aryVersi
        1 => 0x2020_2020_2020_745f, // _t
        2 => BLANKS,
        3 => 0x2020_2020_2020_745f, // _t
        4 => 0x5f73_6574_616e_6964, // dinates_
        5 => 0x2020_745f_6e6f_6974, // tion_t
        6 => 0x2020_2020_2020_745f, // _t
        7 => 0x2020_2020_745f_6567, // ge_t
        8 => BLANKS,
        9 => 0x2020_745f_6e6f_6974, // tion_t
        10 => 0x2020_2020_2074_5f79, // y_t
        11 => 0x2020_2020_745f_726f, // or_t
        12 => 0x5f61_7461_4464_656e, // nedData_
        13 => 0x2020_2020_745f_7961, // ay_t
        14 => 0x6973_7265_5679_7261, // aryVersi
        15 => BLANKS,
        16 => BLANKS,
        17 => 0x2020_2020_6e6f_6974, // tion
        18 => 0x2020_2020_6567_6e61, // ange
        19 => 0x7669_7463_656e_6e6f, // onnectiv
        20 => 0x7366_664f_7472_6174, // tartOffs
        21 => 0x2020_2020_2020_6567, // ge
        22 => 0x2020_2020_2020_2074, // t
        _ => 0x2020_7374_6e65_6d65, // ements
    }
}

// The third.
fn third_word(k: usize) -> u64
    requires { k < 24 }
    ensures { result ≡ field_word (get_or known_texts k []) 2 }
{
    match k {
        0 => 0x2020_2020_745f_6e6f, // on_t
        4 => 0x2020_2020_2020_2074, // t
        12 => 0x2020_2020_2020_2074, // t
        14 => 0x2020_2020_2020_6e6f, // on
        19 => 0x2020_2020_2079_7469, // ity
        20 => 0x2020_2020_2020_7465, // et
        _ => BLANKS,
    }
}

// Are these the words after the first one of text k? All fourth words are blanks.
pub fn rest_is(k: usize, second: u64, third: u64, fourth: u64) -> bool
    requires { k < 24 }
    ensures { result ≡ rest_is k second third fourth }
{
    second == second_word(k) && third == third_word(k) && fourth == BLANKS
}
