// The keywords and their codes.
#![tactic(auto)]

ghost use Rattle.std.specs.Prelude.{◌≡◌, length};
ghost use Rattle.words.specs.Words.{is_word};
ghost use Rattle.keywords.specs.Keywords.{code_in, keywords, sized, entries};

// Whether a text is a word of its length: only a word with the text's first letter is compared with it.
fn is_it(word: &[u8], text: &[u8]) -> bool
    ensures { result ≡ is_word word.now text.now }
{
    text.first() == word.first() && words::is_word(text, word)
}

// The code of the keyword that the text is among those of its length, where it is one; of `find` no proof closed at pairs that hold a reference.
#[tactic(auto, using(crate::proofs::Table::walk_start))]
fn code_in(group: &[(u16, &[u8])], text: &[u8]) -> Option<u16>
    requires group_value { entries group.now ≡ sized (length text.now) keywords }
    ensures { result ≡ code_in keywords text.now }
{
    for (code, word) in group {
        if is_it(word, text) {
            return Some(*code);
        }
    }
    None
}

// The code of the keyword that the text is, where it is one: only those of its length are compared, since to look through one list of all took three times as many instructions.
#[tactic(auto, unfolding(crate::specs::Keywords::sized, crate::specs::Keywords::entries, crate::specs::Keywords::keywords, words::specs::Words::bytes))]
pub fn code_of(text: &[u8]) -> Option<u16>
    ensures { result ≡ code_in keywords text.now }
{
    match text.len() {
        1 => code_in(&[(10, b"X"), (11, b"Y"), (12, b"Z")], text),
        2 => code_in(&[(23, b"GM")], text),
        4 => code_in(&[(24, b"MASS")], text),
        5 => code_in(
            &[
                (9, b"EPOCH"),
                (13, b"X_DOT"),
                (14, b"Y_DOT"),
                (15, b"Z_DOT"),
            ],
            text,
        ),
        8 => code_in(
            &[(33, b"MAN_DV_1"), (34, b"MAN_DV_2"), (35, b"MAN_DV_3")],
            text,
        ),
        9 => code_in(
            &[
                (5, b"OBJECT_ID"),
                (7, b"REF_FRAME"),
                (27, b"DRAG_AREA"),
                (41, b"STOP_TIME"),
            ],
            text,
        ),
        10 => code_in(
            &[(3, b"ORIGINATOR"), (28, b"DRAG_COEFF"), (38, b"START_TIME")],
            text,
        ),
        11 => code_in(
            &[
                (4, b"OBJECT_NAME"),
                (6, b"CENTER_NAME"),
                (8, b"TIME_SYSTEM"),
                (18, b"INCLINATION"),
            ],
            text,
        ),
        12 => code_in(
            &[
                (17, b"ECCENTRICITY"),
                (21, b"TRUE_ANOMALY"),
                (22, b"MEAN_ANOMALY"),
                (30, b"MAN_DURATION"),
            ],
            text,
        ),
        13 => code_in(
            &[
                (2, b"CREATION_DATE"),
                (32, b"MAN_REF_FRAME"),
                (42, b"INTERPOLATION"),
            ],
            text,
        ),
        14 => code_in(
            &[
                (1, b"CCSDS_OPM_VERS"),
                (19, b"RA_OF_ASC_NODE"),
                (25, b"SOLAR_RAD_AREA"),
                (31, b"MAN_DELTA_MASS"),
                (36, b"CCSDS_OEM_VERS"),
            ],
            text,
        ),
        15 => code_in(&[(16, b"SEMI_MAJOR_AXIS"), (26, b"SOLAR_RAD_COEFF")], text),
        17 => code_in(
            &[(20, b"ARG_OF_PERICENTER"), (40, b"USEABLE_STOP_TIME")],
            text,
        ),
        18 => code_in(
            &[(29, b"MAN_EPOCH_IGNITION"), (39, b"USEABLE_START_TIME")],
            text,
        ),
        20 => code_in(&[(43, b"INTERPOLATION_DEGREE")], text),
        _ => None,
    }
}
