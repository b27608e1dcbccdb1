//! A relation, its alternatives, and what they ask of a version.
use crate::arch::Arch;
use crate::archs::Archs;
use crate::meeting::{are_asked, are_met, is_active};
use crate::members::Members;
use crate::offering::Offering;
use crate::relation_fault::RelationFault;
use crate::relation_reading::read_relation;
use std::alloc::Global;
use td_version::Version;

/// How an offer's version has to stand to the one that is given (Debian Policy 7.1).
#[derive(Clone, Copy)]
pub enum Operator {
    /// `<<`
    Earlier,
    /// `<=`
    EarlierOrEqual,
    /// `=`
    Equal,
    /// `>=`
    LaterOrEqual,
    /// `>>`
    Later,
}

/// What is asked of an offer's version.
#[derive(Clone, Copy)]
pub struct Restriction<'a> {
    pub operator: Operator,
    pub version: Version<'a>,
}

/// One alternative of a member.
#[derive(Clone, Copy)]
pub struct Alternative<'a> {
    pub name: &'a str,
    pub restriction: Option<Restriction<'a>>,
    /// What stands between the brackets of the architecture list: its words, as they are written.
    pub archs: Option<&'a str>,
    /// Whether the build profile lists hold where no profile is active; so where there are none.
    pub unprofiled: bool,
}

impl Alternative<'_> {
    ghost use Rattle.std.specs.Prelude.{◌≡◌, ◌<◌, length, option_map, slice_get, Some};
    ghost use Rattle.td_relation.specs.Asked.{asked};
    ghost use Rattle.td_relation.specs.Meeting.{active};
    ghost use Rattle.td_relation.specs.TableView.{table};

    /// Whether it counts on the architecture at this place of the table, where no build profile is
    /// active.
    pub fn is_active(&self, archs: &Archs<'_>, arch: usize) -> bool
        requires { arch < length (table archs.now) }
        ensures { option_map (λ a. active a (asked self.now)) (slice_get (table archs.now) arch)
            ≡ Some result }
    {
        is_active(self, &archs.at(arch))
    }
}

/// A relation: the alternatives in one list, and how many of them each member has.
#[derive(Drop)]
pub struct Relation<'a> {
    pub(crate) alternatives: Vec<Alternative<'a>>,
    pub(crate) sizes: Vec<usize>,
}

impl<'a> Relation<'a> {
    ghost use Rattle.std.specs.Prelude.{◌≡◌, ◌<◌, ◌^◌, length, option_map, slice_get, Some};
    ghost use Rattle.std.specs.Prelude.{List, Ok, IfErr, IfOk, MatchResult};
    ghost use Rattle.td_relation.specs.declared.relation_fault.RelationFault.{RelationFault};
    ghost use Rattle.td_relation.specs.Asked.{Asked};
    ghost use Rattle.td_relation.specs.RelationGrammar.{relation_at};
    ghost use Rattle.td_relation.specs.RelationViews.{IsFaultOf};
    ghost use Rattle.td_relation.specs.Meeting.{met, names as names_of};
    ghost use Rattle.td_relation.specs.Members.{members as members_of};
    ghost use Rattle.td_relation.specs.MembersLeft.{members_left};
    ghost use Rattle.td_relation.specs.TableView.{table};
    ghost use Rattle.td_relation.specs.Arch.{words_of};

    /// Reads a relation: members between commas, alternatives between bars. A member of only
    /// whitespace is skipped. The first fault from the left decides:
    /// `relations_are_refused_exactly` says which that is, and `relations_are_read_exactly` which
    /// texts are read.
    pub fn read(alloc: Global, text: &'a str) -> Result<Relation<'a>, RelationFault>
        // What is read is what the text asks.
        ensures found { IfOk result (λ r. relation_at text.now ≡ Ok (members_of r)) }
        // A relation is read, unless memory runs out.
        ensures only { (ms : List (List Asked)) → relation_at text.now ≡ Ok ms
            → MatchResult result (λ r. members_of r ≡ ms) (λ e. e ≡ RelationFault.NoMemory) }
        // A fault is the text's, or memory ran out.
        ensures fault { IfErr result (λ e. IsFaultOf (relation_at text.now) e) }
    {
        read_relation(alloc, text)
    }

    /// The members, each as its alternatives.
    pub fn members(&self) -> Members<'_, 'a>
        ensures all { members_left result ≡ members_of self.now }
        ensures limited { length (members_of self.now) < 2 ^ 64 }
    {
        Members {
            alternatives: self.alternatives.as_slice(),
            sizes: self.sizes.as_slice(),
        }
    }

    /// Whether what is on offer meets it on the architecture at this place of the table.
    pub fn met_by<O: Offering>(&self, offers: &O, archs: &Archs<'_>, arch: usize) -> bool
        requires { arch < length (table archs.now) }
        ensures { option_map (λ a. met (O.on_offer offers.now) arch a (members_of self.now))
            (slice_get (table archs.now) arch) ≡ Some result }
    {
        self.is_met(offers, archs.at(arch), arch)
    }

    /// Whether some alternative that is active on the architecture at this place has the name.
    pub fn names(&self, archs: &Archs<'_>, arch: usize, name: &str) -> bool
        requires { arch < length (table archs.now) }
        ensures { option_map (λ a. names_of a name.now (members_of self.now))
            (slice_get (table archs.now) arch) ≡ Some result }
    {
        self.is_named(archs.at(arch), name)
    }

    fn is_met<O: Offering>(&self, offers: &O, arch: Arch<'_>, place: usize) -> bool
        ensures { result ≡ met (O.on_offer offers.now) place (words_of arch.entry)
            (members_of self.now) }
    {
        are_met(
            self.alternatives.as_slice(),
            self.sizes.as_slice(),
            offers,
            &arch,
            place,
        )
    }

    fn is_named(&self, arch: Arch<'_>, name: &str) -> bool
        ensures { result ≡ names_of (words_of arch.entry) name.now (members_of self.now) }
    {
        are_asked(
            self.alternatives.as_slice(),
            self.sizes.as_slice(),
            &arch,
            name,
        )
    }
}
