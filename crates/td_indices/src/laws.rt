//! What is read and kept of the indices' stanzas, and what an archive offers, as theorems.
ghost use Rattle.td_indices.specs.BadFields.{BadPackageRelationsAreExact};
ghost use Rattle.td_indices.specs.BadFields.{BadSourceRelationsAreExact};
ghost use Rattle.td_indices.specs.BadFields.{PackageVersionsComeInOrder};
ghost use Rattle.td_indices.specs.Counting.{
  GreatestPackagesAreKept,
  GreatestSourcesAreKept,
  LowerPackagesAreExact,
  LowerSourcesAreExact,
  PackageKeysAreExact,
  SourceKeysAreExact,
};
ghost use Rattle.td_indices.specs.FaultLaws.{PackageFaultsComeInOrder, SourceFaultsComeInOrder};
ghost use Rattle.td_indices.specs.FirstFaults.{FirstFaultyPackageIsNamed, FirstFaultySourceIsNamed};
ghost use Rattle.td_indices.specs.MissingFields.{MissingPackageFieldsAreExact};
ghost use Rattle.td_indices.specs.MissingFields.{MissingSourceFieldsAreExact};
ghost use Rattle.td_indices.specs.OfferLaws.{OffersAreExact};
ghost use Rattle.td_indices.specs.OpeningLaws.{OpeningRowsAreExact};
ghost use Rattle.td_indices.specs.OfferedNames.{NamesAreThoseOfOffers};
ghost use Rattle.td_indices.specs.PackageStanzas.{KeptPackagesAreExact, PackagesAreExact};
ghost use Rattle.td_indices.specs.PackageStanzas.{SkippedPackagesAreExact};
ghost use Rattle.td_indices.specs.SourceStanzas.{KeptSourcesAreExact, SkippedSourcesAreExact};

/// Those packages and those sources are kept that count among the ones that the stanzas stand for,
/// each by itself: one of each key, with the greatest version, the first of those equal in order.
pub fn greatest_versions_are_kept()
    ensures packages { GreatestPackagesAreKept }
    ensures sources { GreatestSourcesAreKept }
{}

/// The names that a package offers are those of what it puts on offer.
pub fn offered_names_are_those_of_offers()
    ensures { NamesAreThoseOfOffers }
{}

/// A refusal for what a stanza says names the first stanza that can't be kept.
pub fn first_faulty_stanzas_are_named()
    ensures packages { FirstFaultyPackageIsNamed }
    ensures sources { FirstFaultySourceIsNamed }
{}

/// Two stanzas are of one key if and only if they have one name, and packages one place too; one is
/// lower than another if and only if its version is less in order.
pub fn keys_and_versions_decide()
    ensures package_keys { PackageKeysAreExact }
    ensures source_keys { SourceKeysAreExact }
    ensures package_versions { LowerPackagesAreExact }
    ensures source_versions { LowerSourcesAreExact }
{}

/// A stanza of Packages is read as a package if and only if it is that package; so a Source field
/// is only a name, or a name and a version in brackets.
pub fn package_stanzas_are_read_exactly()
    ensures { PackagesAreExact }
{}

/// What an archive puts on offer is each package itself, and each name that it provides, with the
/// version that is there after `=`, or without one if no restriction is there.
pub fn offers_come_of_packages()
    ensures { OffersAreExact }
{}

/// A stanza is kept as a package, or as a source, if and only if it is that one and its relations
/// can be read.
pub fn stanzas_are_kept_exactly()
    ensures packages { KeptPackagesAreExact }
    ensures sources { KeptSourcesAreExact }
    ensures elsewhere { SkippedPackagesAreExact }
    ensures extra { SkippedSourcesAreExact }
{}

/// A key opens exactly with the row that the packages of its source give it that were built there:
/// Installed with the greatest number of a rebuild, or blank where there is none.
pub fn opening_rows_are_by_what_was_built()
    ensures { OpeningRowsAreExact }
{}

/// The faults of a stanza come in order: first those of the fields that it needs, then those of its
/// versions, then those of its relations.
pub fn faults_of_a_stanza_come_in_order()
    ensures packages { PackageFaultsComeInOrder }
    ensures sources { SourceFaultsComeInOrder }
{}

/// A field of a stanza is named as missing if and only if it is the first that is: of Package,
/// Version, Architecture and, in a package that is here, Source.
pub fn missing_fields_are_told_in_order()
    ensures packages { MissingPackageFieldsAreExact }
    ensures sources { MissingSourceFieldsAreExact }
{}

/// A relation of a stanza is named as bad if and only if it is the first that is none, and all
/// before it can be read: of a package Depends, Pre-Depends and Provides, of a source Build-Depends
/// and Build-Depends-Arch. A package's own version is named as bad before its source's.
pub fn bad_fields_are_told_in_order()
    ensures versions { PackageVersionsComeInOrder }
    ensures packages { BadPackageRelationsAreExact }
    ensures sources { BadSourceRelationsAreExact }
{}
