//! The archive of the tests: one source, built on two architectures. This project's own worked
//! example.

pub(crate) const ARCHS: &str = "amd64 linux amd64\ni386 linux i386\n";

pub(crate) const PACKAGES: &str = "\
Package: libfoo1
Source: foo
Version: 1.2-3
Architecture: amd64

Package: libfoo1
Source: foo
Version: 1.2-3
Architecture: i386
";

pub(crate) const SOURCES: &str = "Package: foo\nVersion: 1.2-3\nArchitecture: any\n";
