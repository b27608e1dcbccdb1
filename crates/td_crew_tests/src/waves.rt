//! The archive in `examples/archives/waves`, its tracker, and what is answered: five sources
//! that build on one another. This project's own worked example.

pub(crate) const ARCHS: &str = "amd64 linux amd64\n";

pub(crate) const PACKAGES: &str = "\
Package: pa-bin
Source: pa
Version: 1
Architecture: amd64
Depends: libfoo2

Package: qb-dev
Source: qb
Version: 1
Architecture: amd64
Depends: libfoo1 (>= 1.0)

Package: qb-bin
Source: qb
Version: 1
Architecture: amd64
Depends: libfoo2

Package: rc-dev
Source: rc
Version: 1
Architecture: amd64
Depends: libfoo1

Package: sd-dev
Source: sd
Version: 1
Architecture: amd64
Depends: libfoo1 | libfoo3

Package: te
Version: 1
Architecture: amd64
Depends: libfoo10
";

pub(crate) const SOURCES: &str = "\
Package: pa
Version: 1
Architecture: any
Build-Depends: qb-dev

Package: qb
Version: 1
Architecture: any
Build-Depends: libfoo-dev

Package: rc
Version: 1
Architecture: any
Build-Depends: sd-dev

Package: sd
Version: 1
Architecture: any
Build-Depends: rc-dev

Package: te
Version: 1
Architecture: any
";

pub(crate) const TRACKER: &str = r#"title = "libfoo2";
is_affected = .depends ~ "libfoo1" | .depends ~ "libfoo2";
is_good = .depends ~ "libfoo2";
is_bad = .depends ~ "libfoo1";
"#;

pub(crate) const REPORT: &str = "\
tracker libfoo2
level 1 rows 1 installed 1
qb/amd64 partial Installed 0 0
level 2 rows 1 installed 1
pa/amd64 good Installed 0 0
cyclic rows 2 installed 2
rc/amd64 bad Installed 0 0
sd/amd64 bad Installed 0 0
affected 4 good 1 bad 2 partial 1 unknown 0
";

pub(crate) const LEVELS: &str = "level 1\nqb\nlevel 2\npa\ncyclic\nrc\nsd\n";
