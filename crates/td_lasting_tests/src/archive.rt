//! The archive of the tests: foo builds on bar, on two architectures; qux has a version that ends in
//! a rebuild suffix. This project's own worked example.

pub(crate) const ARCHS: &str = "# two\namd64 linux amd64\n\ni386 linux i386\n";

pub(crate) const PACKAGES: &str = "\
Package: libfoo1
Source: foo
Version: 1.2-3
Architecture: amd64

Package: libfoo1
Source: foo (1.2-3)
Version: 1.2-3+b1
Architecture: i386

Package: libbar-dev
Source: bar
Version: 2.0-1
Architecture: amd64
Provides: bar-dev, libbar (= 2)

Package: libbar-dev
Source: bar
Version: 2.0-1
Architecture: i386

Package: qux
Version: 1+b2
Architecture: amd64
";

pub(crate) const SOURCES: &str = "\
Package: foo
Version: 1.2-3
Architecture: any
Build-Depends: libbar-dev

Package: bar
Version: 2.0-1
Architecture: any

Package: qux
Version: 1+b2
Architecture: amd64
";

/// One version is another.
pub(crate) const PACKAGES_CHANGED: &str = "\
Package: libfoo1
Source: foo
Version: 1.2-3
Architecture: amd64
";
