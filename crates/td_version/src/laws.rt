//! What is promised of versions as such.
ghost use Rattle.std.specs.Cmp.{IsTotalOrder};
ghost use Rattle.td_version.specs.Base.{RebuildsHaveBases, SplitsHaveBases};
ghost use Rattle.td_version.specs.Order.{version_cmp};
ghost use Rattle.td_version.specs.Runs.{PairsAreRuns};
ghost use Rattle.td_version.specs.Laws.{
  IsReflexive,
  IsTotal,
  IsTransitive,
  RebuildsAreVersions,
  RebuildsRise,
  SomeTextsAreEqualInOrder,
};

/// The order of `cmp_version` is a total preorder, and compares parts by their runs.
pub fn versions_are_ordered()
    ensures reflexive { IsReflexive }
    ensures total { IsTotal }
    ensures transitive { IsTransitive }
    ensures order { IsTotalOrder version_cmp }
    ensures coarse { SomeTextsAreEqualInOrder }
    ensures runs { PairsAreRuns }
{}

/// The rebuilds of a version rise above it with their numbers, and have it as their base, as the
/// text of each splits into that of the base and the number.
pub fn rebuilds_rise()
    ensures read { RebuildsAreVersions }
    ensures rise { RebuildsRise }
    ensures base { RebuildsHaveBases }
    ensures splits { SplitsHaveBases }
{}
