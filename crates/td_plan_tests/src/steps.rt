//! Cases of the steps of all affected sources, and of what each builds on. Expected by hand, from
//! the rules of waves in `docs/FORMATS.md`.
use crate::planning::{AMD64, TWO_ARCHS};

/// An archive, and what is expected: by steps, by levels with reasons, and by steps with reasons.
#[derive(Clone, Copy)]
pub struct Case {
    pub name: &'static str,
    pub archs: &'static str,
    pub packages: &'static str,
    pub sources: &'static str,
    pub steps: &'static str,
    pub why: &'static str,
    pub steps_why: &'static str,
}

pub const CASES: [Case; 3] = [
    Case {
        name: "a cycle, and what stands on it",
        archs: AMD64,
        packages: "\
Package: a-dev
Source: aa
Version: 1
Architecture: amd64
Depends: libold

Package: b-tool
Source: bb
Version: 1
Architecture: amd64
Depends: libnew

Package: c-bin
Source: cc
Version: 1
Architecture: amd64
Depends: libold

Package: m-dev
Source: mm
Version: 1
Architecture: amd64
Depends: libold

Package: q-dev
Source: qq
Version: 1
Architecture: amd64
Depends: libold

",
        sources: "\
Package: qq
Version: 1
Architecture: any

Package: mm
Version: 1
Architecture: any
Build-Depends: a-dev, q-dev

Package: cc
Version: 1
Architecture: any
Build-Depends: m-dev, a-dev, b-tool

Package: bb
Version: 1
Architecture: any
Build-Depends: q-dev

Package: aa
Version: 1
Architecture: any
Build-Depends: m-dev

",
        steps: "\
step 1
qq
step 2
aa mm
bb
step 3
cc
",
        why: "\
level 1
qq
level 2
bb: qq q-dev
cyclic
aa: mm m-dev
cc: aa a-dev, bb b-tool, mm m-dev
mm: aa a-dev, qq q-dev
",
        steps_why: "\
step 1
qq
step 2
aa: mm m-dev
mm: aa a-dev, qq q-dev
bb: qq q-dev
step 3
cc: aa a-dev, bb b-tool, mm m-dev
",
    },
    Case {
        name: "a package on one architecture, a provided name, and sources that build on none",
        archs: TWO_ARCHS,
        packages: "\
Package: a-2-dev
Source: aa
Version: 1
Architecture: amd64
Provides: a-dev
Depends: libold

Package: b-dev
Source: bb
Version: 1
Architecture: amd64
Depends: libold

Package: b-alt-dev
Source: bb
Version: 1
Architecture: i386
Depends: libold

Package: c-bin
Source: cc
Version: 1
Architecture: amd64
Depends: libold

Package: d-bin
Source: dd
Version: 1
Architecture: amd64
Depends: libold

Package: e-tool
Source: ee
Version: 1
Architecture: all
Depends: libold

Package: z-dev
Source: zz
Version: 1
Architecture: amd64

",
        sources: "\
Package: aa
Version: 1
Architecture: any

Package: bb
Version: 1
Architecture: any
Build-Depends: a-dev | z-dev

Package: cc
Version: 1
Architecture: any
Build-Depends-Arch: b-dev [amd64], b-alt-dev [i386], e-tool (>= 99)

Package: dd
Version: 1
Architecture: amd64
Build-Depends: b-alt-dev, d-bin, z-dev

Package: ee
Version: 1
Architecture: any

Package: zz
Version: 1
Architecture: any
Build-Depends: a-dev

",
        steps: "\
step 1
aa
dd
ee
step 2
bb
step 3
cc
",
        why: "\
level 1
aa
dd
ee
level 2
bb: aa a-2-dev
level 3
cc: bb b-alt-dev, ee e-tool
",
        steps_why: "\
step 1
aa
dd
ee
step 2
bb: aa a-2-dev
step 3
cc: bb b-alt-dev, ee e-tool
",
    },
    Case {
        name: "nothing is affected",
        archs: AMD64,
        packages: "",
        sources: "\
Package: aa
Version: 1
Architecture: any

",
        steps: "",
        why: "",
        steps_why: "",
    },
];
