//! Cases of messages. Expected by hand, from the rules of plans in `docs/FORMATS.md`.
use crate::planning::{AMD64, Case};

pub const CASES: [Case; 6] = [
    Case {
        name: "a quote",
        archs: AMD64,
        packages: "\
Package: libfoo1
Source: foo
Version: 1
Architecture: amd64
Depends: libold

",
        sources: "\
Package: foo
Version: 1
Architecture: any

",
        state: "",
        message: "it's",
        expected: "\
# tracker libfoo2
# step 1
nmu 1 foo_1 . amd64 . unstable . -m \"it's\"
",
    },
    Case {
        name: "a dollar",
        archs: AMD64,
        packages: "\
Package: libfoo1
Source: foo
Version: 1
Architecture: amd64
Depends: libold

",
        sources: "\
Package: foo
Version: 1
Architecture: any

",
        state: "",
        message: "cost $5",
        expected: "\
# tracker libfoo2
# step 1
nmu 1 foo_1 . amd64 . unstable . -m 'cost $5'
",
    },
    Case {
        name: "a double quote",
        archs: AMD64,
        packages: "\
Package: libfoo1
Source: foo
Version: 1
Architecture: amd64
Depends: libold

",
        sources: "\
Package: foo
Version: 1
Architecture: any

",
        state: "",
        message: "say \"x\"",
        expected: "\
# tracker libfoo2
# step 1
nmu 1 foo_1 . amd64 . unstable . -m 'say \"x\"'
",
    },
    Case {
        name: "a backquote",
        archs: AMD64,
        packages: "\
Package: libfoo1
Source: foo
Version: 1
Architecture: amd64
Depends: libold

",
        sources: "\
Package: foo
Version: 1
Architecture: any

",
        state: "",
        message: "a `b`",
        expected: "\
# tracker libfoo2
# step 1
nmu 1 foo_1 . amd64 . unstable . -m 'a `b`'
",
    },
    Case {
        name: "a backslash",
        archs: AMD64,
        packages: "\
Package: libfoo1
Source: foo
Version: 1
Architecture: amd64
Depends: libold

",
        sources: "\
Package: foo
Version: 1
Architecture: any

",
        state: "",
        message: "a\\b",
        expected: "\
# tracker libfoo2
# step 1
nmu 1 foo_1 . amd64 . unstable . -m 'a\\b'
",
    },
    Case {
        name: "no message",
        archs: AMD64,
        packages: "\
Package: libfoo1
Source: foo
Version: 1
Architecture: amd64
Depends: libold

",
        sources: "\
Package: foo
Version: 1
Architecture: any

",
        state: "",
        message: "",
        expected: "\
# tracker libfoo2
# step 1
nmu 1 foo_1 . amd64 . unstable . -m \"\"
",
    },
];
