use naga_oil_pre::line_kind::{Condition, LineKind, is_name, line_kind, unversioned_line_kind};
use std::test::Fail;

const DEFINED: LineKind = LineKind::Condition {
    is_else: false,
    condition: Condition::Defined("é|1"),
};

const ELSE_DEFINED: LineKind = LineKind::Condition {
    is_else: true,
    condition: Condition::Defined("A"),
};

const COMPARES_LAST: LineKind = LineKind::Condition {
    is_else: false,
    condition: Condition::Compares {
        name: "FO",
        operator: "",
        value: "O",
    },
};

const COMPARES_LAST_LETTER: LineKind = LineKind::Condition {
    is_else: false,
    condition: Condition::Compares {
        name: "FO",
        operator: "",
        value: "é",
    },
};

const ELSE_COMPARES: LineKind = LineKind::Condition {
    is_else: true,
    condition: Condition::Compares {
        name: "T",
        operator: "!!",
        value: "-1",
    },
};

const OTHERWISE: LineKind = LineKind::Condition {
    is_else: true,
    condition: Condition::Otherwise,
};

static KINDS: [(&str, LineKind); 13] = [
    (" #version 450", LineKind::Version { is_known: true }),
    ("# version 450", LineKind::Other),
    ("#ifdef é|1 x", DEFINED),
    ("#\u{3000}else\u{a0}ifdef A", ELSE_DEFINED),
    ("#if FOO", COMPARES_LAST),
    ("#if FOé", COMPARES_LAST_LETTER),
    ("#else if T !! -1", ELSE_COMPARES),
    ("#else if X", OTHERWISE),
    ("#endifx", LineKind::EndIf),
    ("#import a", LineKind::Import),
    ("#importx", LineKind::Other),
    ("#define_import_path a::b c", LineKind::ImportPath("a::b")),
    ("let x = 1; // #endif", LineKind::Other),
];

#[test]
fn reads_kinds() -> Result<(), Fail> {
    for (line, kind) in &KINDS {
        if line_kind(line) != *kind {
            return Err(Fail::from(*line));
        }
    }
    Ok(())
}

#[test]
fn reads_unversioned_kinds() -> Result<(), Fail> {
    if unversioned_line_kind("#version 450") == LineKind::Other
        && unversioned_line_kind("#endif") == LineKind::EndIf
    {
        Ok(())
    } else {
        Err(Fail::from("another kind"))
    }
}

#[test]
fn tells_names() -> Result<(), Fail> {
    if is_name("é|1_") && !is_name("") && !is_name("a b") {
        Ok(())
    } else {
        Err(Fail::from("another name"))
    }
}
