//! Cases of rebuild numbers. Expected by hand, from the rules of plans in `docs/FORMATS.md`.
use crate::planning::{AMD64, Case, MESSAGE, TWO_ARCHS};

pub const CASES: [Case; 8] = [
    Case {
        name: "two numbers",
        archs: TWO_ARCHS,
        packages: "\
Package: libfoo1
Source: foo (1.0)
Version: 1.0+b2
Architecture: amd64
Depends: libold

Package: libfoo1
Source: foo
Version: 1.0
Architecture: i386
Depends: libold

",
        sources: "\
Package: foo
Version: 1.0
Architecture: any

",
        state: "",
        message: MESSAGE,
        expected: "\
# tracker libfoo2
# step 1
nmu 3 foo_1.0 . amd64 i386 . unstable . -m \"Rebuild against libfoo2\"
",
    },
    Case {
        name: "a number that is above",
        archs: TWO_ARCHS,
        packages: "\
Package: libfoo1
Source: foo (1.0)
Version: 1.0+b2
Architecture: amd64
Depends: libnew

Package: libfoo1
Source: foo
Version: 1.0
Architecture: i386
Depends: libold

",
        sources: "\
Package: foo
Version: 1.0
Architecture: any

",
        state: "",
        message: MESSAGE,
        expected: "\
# tracker libfoo2
# step 1
nmu 2 foo_1.0 . i386 . unstable . -m \"Rebuild against libfoo2\"
",
    },
    Case {
        name: "a number of the state file",
        archs: TWO_ARCHS,
        packages: "\
Package: libfoo1
Source: foo
Version: 1.0
Architecture: amd64
Depends: libnew

Package: libfoo1
Source: foo
Version: 1.0
Architecture: i386
Depends: libold

",
        sources: "\
Package: foo
Version: 1.0
Architecture: any

",
        state: "\
foo/i386 Installed 0 2
",
        message: MESSAGE,
        expected: "\
# tracker libfoo2
# step 1
nmu 3 foo_1.0 . i386 . unstable . -m \"Rebuild against libfoo2\"
",
    },
    Case {
        name: "a number of the index that the row hasn't",
        archs: TWO_ARCHS,
        packages: "\
Package: libfoo1
Source: foo
Version: 1.0
Architecture: amd64
Depends: libnew

Package: libfoo1
Source: foo (1.0)
Version: 1.0+b4
Architecture: i386
Depends: libold

",
        sources: "\
Package: foo
Version: 1.0
Architecture: any

",
        state: "\
foo/i386 Installed 0 0
",
        message: MESSAGE,
        expected: "\
# tracker libfoo2
# step 1
nmu 5 foo_1.0 . i386 . unstable . -m \"Rebuild against libfoo2\"
",
    },
    Case {
        name: "no number is left",
        archs: TWO_ARCHS,
        packages: "\
Package: libtop
Source: top (1.0)
Version: 1.0+b9999
Architecture: amd64
Depends: libold

Package: libtop
Source: top
Version: 1.0
Architecture: i386
Depends: libold

",
        sources: "\
Package: top
Version: 1.0
Architecture: any

",
        state: "",
        message: MESSAGE,
        expected: "\
# tracker libfoo2
# not planned: top/amd64 bad Installed 9999 number
# not planned: top/i386 bad Installed 0 number
",
    },
    Case {
        name: "the last number",
        archs: TWO_ARCHS,
        packages: "\
Package: libtop
Source: top (1.0)
Version: 1.0+b9999
Architecture: amd64
Depends: libnew

Package: libtop
Source: top
Version: 1.0
Architecture: i386
Depends: libold

",
        sources: "\
Package: top
Version: 1.0
Architecture: any

",
        state: "",
        message: MESSAGE,
        expected: "\
# tracker libfoo2
# step 1
nmu 9999 top_1.0 . i386 . unstable . -m \"Rebuild against libfoo2\"
",
    },
    Case {
        name: "the last number, and all is bad",
        archs: AMD64,
        packages: "\
Package: libtop
Source: top (1.0)
Version: 1.0+b9999
Architecture: amd64

Package: top-data
Source: top
Version: 1.0
Architecture: all
Depends: libold

",
        sources: "\
Package: top
Version: 1.0
Architecture: any

",
        state: "",
        message: MESSAGE,
        expected: "\
# tracker libfoo2
# not planned: top/amd64 bad Installed 9999 all
",
    },
    Case {
        name: "epochs and versions of their own",
        archs: AMD64,
        packages: "\
Package: libbase-dev
Source: base (1:2.0-1)
Version: 3:7.1-4+b2
Architecture: amd64
Depends: libold

Package: user-bin
Source: user
Version: 5+b1
Architecture: amd64
Depends: libold

",
        sources: "\
Package: base
Version: 1:2.0-1
Architecture: any

Package: user
Version: 5+b1
Architecture: any
Build-Depends: libbase-dev

",
        state: "",
        message: MESSAGE,
        expected: "\
# tracker libfoo2
# step 1
nmu 3 base_1:2.0-1 . amd64 . unstable . -m \"Rebuild against libfoo2\"
# step 2
nmu 2 user . amd64 . unstable . -m \"Rebuild against libfoo2\"
dw user . amd64 . unstable . -m \"libbase-dev (>= 3:7.1-4+b3)\"
",
    },
];
