//! Cases of steps and parts. Expected by hand, from the rules of plans in `docs/FORMATS.md`.
use crate::planning::{AMD64, Case, MESSAGE, THREE_ARCHS};

pub const CASES: [Case; 4] = [
    Case {
        name: "the sample",
        archs: AMD64,
        packages: "\
Package: qb-dev
Source: qb
Version: 1
Architecture: amd64
Depends: libold

Package: qb-bin
Source: qb
Version: 1
Architecture: amd64
Depends: libnew

Package: pa-dev
Source: pa
Version: 1
Architecture: amd64
Depends: libold

Package: rc-dev
Source: rc
Version: 1
Architecture: amd64
Depends: libold

Package: sd-dev
Source: sd
Version: 1
Architecture: amd64
Depends: libold

Package: te
Source: te
Version: 1
Architecture: amd64
Depends: libold

",
        sources: "\
Package: qb
Version: 1
Architecture: any

Package: pa
Version: 1
Architecture: any
Build-Depends: qb-dev

Package: rc
Version: 1
Architecture: any
Build-Depends: sd-dev, pa-dev

Package: sd
Version: 1
Architecture: any
Build-Depends: rc-dev

Package: te
Version: 1
Architecture: any

",
        state: "\
te/amd64 Failed 0 0
",
        message: MESSAGE,
        expected: "\
# tracker libfoo2
# step 1
nmu 1 qb_1 . amd64 . unstable . -m \"Rebuild against libfoo2\"
# step 2
nmu 1 pa_1 . amd64 . unstable . -m \"Rebuild against libfoo2\"
dw pa_1 . amd64 . unstable . -m \"qb-dev (>= 1+b1)\"
# step 3
# rc sd build on one another
nmu 1 rc_1 . amd64 . unstable . -m \"Rebuild against libfoo2\"
dw rc_1 . amd64 . unstable . -m \"pa-dev (>= 1+b1)\"
nmu 1 sd_1 . amd64 . unstable . -m \"Rebuild against libfoo2\"
# not planned: te/amd64 bad Failed 0 state
",
    },
    Case {
        name: "what stands on a cycle",
        archs: AMD64,
        packages: "\
Package: a-dev
Source: aa
Version: 1
Architecture: amd64
Depends: libold

Package: b-dev
Source: bb
Version: 1
Architecture: amd64
Depends: libold

Package: c-dev
Source: cc
Version: 1
Architecture: amd64
Depends: libold

",
        sources: "\
Package: aa
Version: 1
Architecture: any
Build-Depends: b-dev

Package: bb
Version: 1
Architecture: any
Build-Depends: a-dev

Package: cc
Version: 1
Architecture: any
Build-Depends: a-dev

",
        state: "",
        message: MESSAGE,
        expected: "\
# tracker libfoo2
# step 1
# aa bb build on one another
nmu 1 aa_1 . amd64 . unstable . -m \"Rebuild against libfoo2\"
nmu 1 bb_1 . amd64 . unstable . -m \"Rebuild against libfoo2\"
# step 2
nmu 1 cc_1 . amd64 . unstable . -m \"Rebuild against libfoo2\"
dw cc_1 . amd64 . unstable . -m \"a-dev (>= 1+b1)\"
",
    },
    Case {
        name: "a cycle on a cycle",
        archs: AMD64,
        packages: "\
Package: a-dev
Source: aa
Version: 1
Architecture: amd64
Depends: libold

Package: b-dev
Source: bb
Version: 1
Architecture: amd64
Depends: libold

Package: c-dev
Source: cc
Version: 1
Architecture: amd64
Depends: libold

Package: d-dev
Source: dd
Version: 1
Architecture: amd64
Depends: libold

",
        sources: "\
Package: aa
Version: 1
Architecture: any
Build-Depends: b-dev

Package: bb
Version: 1
Architecture: any
Build-Depends: a-dev

Package: cc
Version: 1
Architecture: any
Build-Depends: d-dev

Package: dd
Version: 1
Architecture: any
Build-Depends: c-dev, b-dev

",
        state: "",
        message: MESSAGE,
        expected: "\
# tracker libfoo2
# step 1
# aa bb build on one another
nmu 1 aa_1 . amd64 . unstable . -m \"Rebuild against libfoo2\"
nmu 1 bb_1 . amd64 . unstable . -m \"Rebuild against libfoo2\"
# step 2
# cc dd build on one another
nmu 1 cc_1 . amd64 . unstable . -m \"Rebuild against libfoo2\"
nmu 1 dd_1 . amd64 . unstable . -m \"Rebuild against libfoo2\"
dw dd_1 . amd64 . unstable . -m \"b-dev (>= 1+b1)\"
",
    },
    Case {
        name: "several relations",
        archs: THREE_ARCHS,
        packages: "\
Package: a-dev
Source: aa
Version: 1
Architecture: amd64
Depends: libold

Package: user-bin
Source: user
Version: 1
Architecture: amd64
Depends: libold

Package: a-dev
Source: aa
Version: 1
Architecture: i386
Depends: libold

Package: user-bin
Source: user
Version: 1
Architecture: i386
Depends: libold

Package: a-dev
Source: aa
Version: 1
Architecture: arm64
Depends: libold

Package: user-bin
Source: user
Version: 1
Architecture: arm64
Depends: libold

Package: b-dev
Source: bb
Version: 1
Architecture: i386
Depends: libold

",
        sources: "\
Package: aa
Version: 1
Architecture: any

Package: bb
Version: 1
Architecture: i386

Package: user
Version: 1
Architecture: any
Build-Depends: b-dev, a-dev

",
        state: "",
        message: MESSAGE,
        expected: "\
# tracker libfoo2
# step 1
nmu 1 aa_1 . amd64 i386 arm64 . unstable . -m \"Rebuild against libfoo2\"
nmu 1 bb_1 . i386 . unstable . -m \"Rebuild against libfoo2\"
# step 2
nmu 1 user_1 . amd64 i386 arm64 . unstable . -m \"Rebuild against libfoo2\"
dw user_1 . amd64 arm64 . unstable . -m \"a-dev (>= 1+b1)\"
dw user_1 . i386 . unstable . -m \"a-dev (>= 1+b1), b-dev (>= 1+b1)\"
",
    },
];
