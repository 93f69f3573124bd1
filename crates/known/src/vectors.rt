// RFC 4648, section 10, written and read in every alphabet.
use crate::show;
use rule::choice::Choice;

const SOURCES: [&str; 7] = ["", "f", "fo", "foo", "foob", "fooba", "foobar"];

// The written form of each source, by alphabet.
const FORMS: [[&str; 7]; 6] = [
    [
        "", "Zg==", "Zm8=", "Zm9v", "Zm9vYg==", "Zm9vYmE=", "Zm9vYmFy",
    ],
    [
        "", "Zg==", "Zm8=", "Zm9v", "Zm9vYg==", "Zm9vYmE=", "Zm9vYmFy",
    ],
    [
        "",
        "MY======",
        "MZXQ====",
        "MZXW6===",
        "MZXW6YQ=",
        "MZXW6YTB",
        "MZXW6YTBOI======",
    ],
    [
        "",
        "CO======",
        "CPNG====",
        "CPNMU===",
        "CPNMUOG=",
        "CPNMUOJ1",
        "CPNMUOJ1E8======",
    ],
    [
        "",
        "66",
        "666F",
        "666F6F",
        "666F6F62",
        "666F6F6261",
        "666F6F626172",
    ],
    [
        "",
        "66",
        "666f",
        "666f6f",
        "666f6f62",
        "666f6f6261",
        "666f6f626172",
    ],
];

pub(crate) fn written(rt: &impl Print) {
    for alphabet in 0..FORMS.len() {
        for source in SOURCES {
            let mut out = [0; 32];
            let outcome = writing::write(alphabet, source.as_bytes(), &mut out);
            let _ = print!(rt; "write {alphabet} ");
            show::line(rt, source, outcome, &out);
        }
    }
}

pub(crate) fn read(rt: &impl Print) {
    for (alphabet, forms) in FORMS.iter().enumerate() {
        let strict = Choice {
            alphabet,
            options: 0,
        };
        for text in forms {
            let mut out = [0; 32];
            let outcome = block::read(strict, text.as_bytes(), &mut out);
            let _ = print!(rt; "read {alphabet} ");
            show::line(rt, text, outcome, &out);
        }
    }
}
