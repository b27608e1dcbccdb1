//! How a file is packed, by its first bytes.
ghost use Rattle.std.specs.Prelude.{◌≡◌};
ghost use Rattle.td_explain.specs.Packing.{packing_name, packing_of as packing_of_of};

/// How a file is packed.
#[derive(Clone, Copy, Debug, PartialEq, Eq, Drop)]
pub enum Packing {
    Gzip,
    Xz,
    Zstd,
    Bzip2,
}

impl Packing {
    /// What is said of a file that is packed so.
    pub fn said(self) -> &'static str
        ensures { result.now ≡ packing_name self }
    {
        match self {
            Packing::Gzip => "is packed by gzip",
            Packing::Xz => "is packed by xz",
            Packing::Zstd => "is packed by zstd",
            Packing::Bzip2 => "is packed by bzip2",
        }
    }
}

/// How a file with these bytes is packed, if it is. Its first six bytes decide.
pub fn packing_of(bytes: &[u8]) -> Option<Packing>
    ensures { result ≡ packing_of_of bytes.now }
{
    if bytes.starts_with(&[31, 139]) {
        Some(Packing::Gzip)
    } else if bytes.starts_with(&[253, 55, 122, 88, 90, 0]) {
        Some(Packing::Xz)
    } else if bytes.starts_with(&[40, 181, 47, 253]) {
        Some(Packing::Zstd)
    } else if bytes.starts_with(b"BZh") {
        Some(Packing::Bzip2)
    } else {
        None
    }
}
