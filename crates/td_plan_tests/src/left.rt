//! Cases of rows that aren't planned. Expected by hand, from the rules of plans in
//! `docs/FORMATS.md`.
use crate::planning::{AMD64, Case, MESSAGE};

pub const CASES: [Case; 3] = [
    Case {
        name: "an older version alone is bad",
        archs: AMD64,
        packages: "\
Package: libold1
Source: old (1)
Version: 1
Architecture: amd64
Depends: libold

Package: libold2
Source: old
Version: 2
Architecture: amd64

",
        sources: "\
Package: old
Version: 2
Architecture: any

",
        state: "",
        message: MESSAGE,
        expected: "\
# tracker libfoo2
# not planned: old/amd64 bad Installed 0 old
",
    },
    Case {
        name: "all alone is bad",
        archs: AMD64,
        packages: "\
Package: data
Source: old
Version: 1
Architecture: all
Depends: libold

Package: libold2
Source: old
Version: 1
Architecture: amd64

",
        sources: "\
Package: old
Version: 1
Architecture: any

",
        state: "",
        message: MESSAGE,
        expected: "\
# tracker libfoo2
# not planned: old/amd64 bad Installed 0 all
",
    },
    Case {
        name: "the source alone is bad",
        archs: AMD64,
        packages: "\
Package: libold2
Source: old
Version: 1
Architecture: amd64

",
        sources: "\
Package: old
Version: 1
Architecture: any
Depends: libold

",
        state: "",
        message: MESSAGE,
        expected: "\
# tracker libfoo2
# not planned: old/amd64 bad Installed 0 source
",
    },
];
