//! Where the texts of files come from: the disk, or whatever has them.
use crate::cause::Cause;
use std::alloc::Global;
use std::thread::Threads;
use td_bytes::TextFault;
use td_explain::Packing;

/// Files that are texts, by their paths. The program reads those of the disk.
pub trait Texts {
    ghost use Rattle.std.specs.Prelude.{
      ◌≡◌,
      ℕ,
      ◌≤◌,
      ◌<◌,
      ◌++◌,
      Bool,
      true,
      List,
      length,
      Option,
      Some,
      IfOk,
      IfErr,
      IfSome,
      IsErrOf,
      IsUtf8,
    };
    ghost use Rattle.std.specs.String.{string_bytes};
    ghost use Rattle.td_bytes.specs.declared.text.TextFault.{TextFault};
    ghost use Rattle.td_bytes.specs.declared.text.TextFault.TheVariants.{NotText, TooLong};
    ghost use Rattle.td_explain.specs.Packing.{packing_of};
    ghost use Rattle.td_explain.specs.declared.packing.Packing.{Packing};
    ghost use Rattle.td_tool.specs.declared.cause.Cause.{Cause};

    // The bytes of the file with this path, if clauses know them.
    ghost bytes: { Self → List ℕ → Option (List ℕ) };

    // For which faults a read of the file with this path may fail.
    ghost can_fail: { Self → List ℕ → TextFault → Bool };

    // What may be known of why the file with this path can't be read, as a text of at most this
    // number of bytes.
    ghost can_be: { Self → List ℕ → ℕ → Option Cause → Bool };

    // What may be known of how the file with this path is packed.
    ghost can_pack: { Self → List ℕ → Option Packing → Bool };

    /// Reads a whole file, a text of at most `limit` bytes.
    fn text(&self, alloc: Global, path: &str, limit: usize) -> Result<String, TextFault>
        ensures text { IfOk result (λ text.
            IfSome (bytes self.now path.now) (λ all. all ≡ string_bytes text)) }
        ensures within { IfOk result (λ text. length (string_bytes text) ≤ limit) }
        ensures not_text { IsErrOf result NotText
            → IfSome (bytes self.now path.now) (λ all. (length all ≤ limit) × ¬ IsUtf8 all) }
        ensures long { IsErrOf result TooLong
            → IfSome (bytes self.now path.now) (λ all. limit < length all) }
        // A read fails only for a fault that the file may have.
        ensures fails { IfErr result (λ fault. can_fail self.now path.now fault ≡ true) };

    /// Reads a whole file, a text of at most `limit` bytes, as its front and its rest, side by
    /// side;
    /// `None` if it isn't read so, for whatever reason.
    fn halves<R: Threads + Sync>(
        &self,
        rt: &R,
        alloc: Global,
        path: &str,
        limit: usize,
    ) -> Option<(String, String)>
        ensures text { IfSome result (λ p. IfSome (bytes self.now path.now)
            (λ all. all ≡ string_bytes p.0 ++ string_bytes p.1)) }
        ensures within { IfSome result (λ p.
            length (string_bytes p.0 ++ string_bytes p.1) ≤ limit) };

    /// Why the file with this path can't be read, as a text of at most `limit` bytes; `None` if
    /// that isn't known.
    fn cause(&self, path: &str, limit: usize) -> Option<Cause>
        ensures { can_be self.now path.now limit result ≡ true };

    /// How the file with this path is packed; `None` if it isn't, or that isn't known.
    fn packing(&self, path: &str) -> Option<Packing>
        ensures packed { IfSome result (λ packing. IfSome (bytes self.now path.now)
            (λ all. packing_of all ≡ Some packing)) }
        ensures may { can_pack self.now path.now result ≡ true };
}
