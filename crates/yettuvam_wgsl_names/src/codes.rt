//! Lookups in tables that name codes. Each takes time linear in the number of rows.
ghost use Rattle.std.specs.Prelude.{◌≡◌, option_map};
ghost use Rattle.yettuvam_wgsl_names.specs.Codes.{name_of, code_of};
ghost use Rattle.yettuvam_wgsl_names.specs.Table.{named};

/// Returns the name of a code.
pub fn name_of(table: &[(u64, &'static str)], code: u64) -> Option<&'static str>
    ensures { option_map (λ n. n.now) result ≡ name_of (named table.now) code }
{
    let mut rest = table;
    while let [(each, name), more @ ..] = rest {
        if *each == code {
            return Some(*name);
        }
        rest = more;
    }
    None
}

/// Returns the code of a name.
pub fn code_of(table: &[(u64, &'static str)], name: &str) -> Option<u64>
    ensures { result ≡ code_of (named table.now) name.now }
{
    let mut rest = table;
    while let [(code, each), more @ ..] = rest {
        if name == *each {
            return Some(*code);
        }
        rest = more;
    }
    None
}
