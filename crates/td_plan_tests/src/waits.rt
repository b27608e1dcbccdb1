//! Cases of what is waited for. Expected by hand, from the rules of plans in `docs/FORMATS.md`.
use crate::planning::{AMD64, Case, MESSAGE, TWO_ARCHS};

pub const CASES: [Case; 8] = [
    Case {
        name: "waits on one architecture",
        archs: TWO_ARCHS,
        packages: "\
Package: libbase-dev
Source: base
Version: 1
Architecture: amd64
Depends: libold

Package: libbase-dev
Source: base
Version: 1
Architecture: i386
Depends: libold

Package: user-bin
Source: user
Version: 1
Architecture: amd64
Depends: libold

Package: user-bin
Source: user
Version: 1
Architecture: i386
Depends: libold

",
        sources: "\
Package: base
Version: 1
Architecture: any

Package: user
Version: 1
Architecture: any
Build-Depends: libbase-dev [amd64]

",
        state: "",
        message: MESSAGE,
        expected: "\
# tracker libfoo2
# step 1
nmu 1 base_1 . amd64 i386 . unstable . -m \"Rebuild against libfoo2\"
# step 2
nmu 1 user_1 . amd64 i386 . unstable . -m \"Rebuild against libfoo2\"
dw user_1 . amd64 . unstable . -m \"libbase-dev (>= 1+b1)\"
",
    },
    Case {
        name: "due on one architecture",
        archs: TWO_ARCHS,
        packages: "\
Package: libbase-dev
Source: base
Version: 1
Architecture: amd64
Depends: libold

Package: libbase-dev
Source: base
Version: 1
Architecture: i386
Depends: libnew

Package: user-bin
Source: user
Version: 1
Architecture: amd64
Depends: libold

Package: user-bin
Source: user
Version: 1
Architecture: i386
Depends: libold

",
        sources: "\
Package: base
Version: 1
Architecture: any

Package: user
Version: 1
Architecture: any
Build-Depends: libbase-dev

",
        state: "",
        message: MESSAGE,
        expected: "\
# tracker libfoo2
# step 1
nmu 1 base_1 . amd64 . unstable . -m \"Rebuild against libfoo2\"
# step 2
nmu 1 user_1 . amd64 i386 . unstable . -m \"Rebuild against libfoo2\"
dw user_1 . amd64 . unstable . -m \"libbase-dev (>= 1+b1)\"
",
    },
    Case {
        name: "all alone is named",
        archs: AMD64,
        packages: "\
Package: base-data
Source: base
Version: 1
Architecture: all

Package: libbase1
Source: base
Version: 1
Architecture: amd64
Depends: libold

Package: user-bin
Source: user
Version: 1
Architecture: amd64
Depends: libold

",
        sources: "\
Package: base
Version: 1
Architecture: any

Package: user
Version: 1
Architecture: any
Build-Depends: base-data

",
        state: "",
        message: MESSAGE,
        expected: "\
# tracker libfoo2
# step 1
nmu 1 base_1 . amd64 . unstable . -m \"Rebuild against libfoo2\"
# step 2
nmu 1 user_1 . amd64 . unstable . -m \"Rebuild against libfoo2\"
dw user_1 . amd64 . unstable . -m \"libbase1 (>= 1+b1)\"
",
    },
    Case {
        name: "a provided name",
        archs: AMD64,
        packages: "\
Package: libbase-2-dev
Source: base
Version: 1
Architecture: amd64
Depends: libold
Provides: libbase-dev

Package: libaaa
Source: base
Version: 1
Architecture: amd64

Package: user-bin
Source: user
Version: 1
Architecture: amd64
Depends: libold

",
        sources: "\
Package: base
Version: 1
Architecture: any

Package: user
Version: 1
Architecture: any
Build-Depends: libbase-dev

",
        state: "",
        message: MESSAGE,
        expected: "\
# tracker libfoo2
# step 1
nmu 1 base_1 . amd64 . unstable . -m \"Rebuild against libfoo2\"
# step 2
nmu 1 user_1 . amd64 . unstable . -m \"Rebuild against libfoo2\"
dw user_1 . amd64 . unstable . -m \"libbase-2-dev (>= 1+b1)\"
",
    },
    Case {
        name: "a pending row",
        archs: AMD64,
        packages: "\
Package: base-dev
Source: base
Version: 1
Architecture: amd64
Depends: libold

Package: user-bin
Source: user
Version: 1
Architecture: amd64
Depends: libold

",
        sources: "\
Package: base
Version: 1
Architecture: any

Package: user
Version: 1
Architecture: any
Build-Depends: base-dev

",
        state: "\
base/amd64 Needs-Build 0 1
",
        message: MESSAGE,
        expected: "\
# tracker libfoo2
# step 2
nmu 1 user_1 . amd64 . unstable . -m \"Rebuild against libfoo2\"
dw user_1 . amd64 . unstable . -m \"base-dev (>= 1+b1)\"
# not planned: base/amd64 bad Needs-Build 1 state
",
    },
    Case {
        name: "a pending row without packages",
        archs: AMD64,
        packages: "\
Package: base-dev
Source: base
Version: 1
Architecture: amd64
Depends: libold

Package: user-bin
Source: user
Version: 1
Architecture: amd64
Depends: libold

",
        sources: "\
Package: base
Version: 2
Architecture: any

Package: user
Version: 1
Architecture: any
Build-Depends: base-dev

",
        state: "",
        message: MESSAGE,
        expected: "\
# tracker libfoo2
# step 2
nmu 1 user_1 . amd64 . unstable . -m \"Rebuild against libfoo2\"
dw user_1 . amd64 . unstable . -m \"base-dev (>= 2)\"
# check: user/amd64 waits for base-dev of an older base
# not planned: base/amd64 bad Needs-Build 0 state
",
    },
    Case {
        name: "a pending row under another name",
        archs: AMD64,
        packages: "\
Package: base-dev
Source: base
Version: 1
Architecture: amd64
Depends: libold
Provides: virt

Package: user-bin
Source: user
Version: 1
Architecture: amd64
Depends: libold

",
        sources: "\
Package: base
Version: 2
Architecture: any

Package: user
Version: 1
Architecture: any
Build-Depends: virt

",
        state: "",
        message: MESSAGE,
        expected: "\
# tracker libfoo2
# step 2
nmu 1 user_1 . amd64 . unstable . -m \"Rebuild against libfoo2\"
# no wait: user/amd64 for base
# not planned: base/amd64 bad Needs-Build 0 state
",
    },
    Case {
        name: "a failed row",
        archs: AMD64,
        packages: "\
Package: base-dev
Source: base
Version: 1
Architecture: amd64
Depends: libold

Package: user-bin
Source: user
Version: 1
Architecture: amd64
Depends: libold

",
        sources: "\
Package: base
Version: 1
Architecture: any

Package: user
Version: 1
Architecture: any
Build-Depends: base-dev

",
        state: "\
base/amd64 Failed 0 0
",
        message: MESSAGE,
        expected: "\
# tracker libfoo2
# step 1
nmu 1 user_1 . amd64 . unstable . -m \"Rebuild against libfoo2\"
# not planned: base/amd64 bad Failed 0 state
",
    },
];
