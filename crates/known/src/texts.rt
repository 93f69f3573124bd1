// 01, "Texts with known outcomes": the table's rows, and the tidied texts.
use crate::show;
use answer::Outcome;
use rule::choice::Choice;

// Alphabet, options and text.
type Row = (usize, usize, &'static str);

const TABLE: [Row; 19] = [
    (0, 0, ""),
    (0, 0, "Zm9vYg=="),
    (0, 0, "Zh=="),
    (0, 8, "Zh=="),
    (0, 4, "Zm9"),
    (0, 4, "Zm8"),
    (0, 0, "Zm9"),
    (0, 4, "Zg="),
    (0, 0, "Zg==Zg=="),
    (0, 0, "Z==="),
    (0, 0, "Zm9v-"),
    (0, 1, "Zg=\r\n="),
    (0, 0, "Zg==\n"),
    (2, 0, "MZXW6YQ="),
    (2, 0, "MZ======"),
    (2, 16, "my======"),
    (2, 0, "my======"),
    (4, 0, "666"),
    (5, 0, "6F"),
];

const TIDIED: [Row; 6] = [
    (0, 8, "Zh=="),
    (0, 4, "Zm8"),
    (2, 16, "my======"),
    (0, 1, "Zg=\r\n="),
    (5, 19, "4 A\n"),
    (0, 0, "Zm9"),
];

// Each row's text by a whole call, and what came of it.
fn rows<F>(rt: &impl Print, how: &str, rows: &[Row], call: F)
where
    F: Fn(Choice, &[u8], &mut [u8]) -> Outcome,
    requires { F.IsAlwaysCallable call }
{
    for &(alphabet, options, text) in rows {
        let mut out = [0; 32];
        let outcome = call(Choice { alphabet, options }, text.as_bytes(), &mut out);
        let _ = print!(rt; "{how}{alphabet} {options} ");
        show::line(rt, text, outcome, &out);
    }
}

pub(crate) fn table(rt: &impl Print) {
    rows(rt, "", &TABLE, block::read)
}

pub(crate) fn tidied(rt: &impl Print) {
    rows(rt, "tidy ", &TIDIED, tidier::tidy)
}
