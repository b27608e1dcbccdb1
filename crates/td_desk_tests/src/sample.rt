//! What the tests begin with: the rows of the example archive, and what its index offers.
ghost use Rattle.std.specs.Prelude.{◌≡◌, IfOk, OnOk};
ghost use Rattle.td_core.specs.Phases.{NoneBuilt};
ghost use Rattle.td_supply.specs.Supply.{opened, stock_of, unstocked};

use std::alloc::Global;
use std::test::Fail;
use td_relation::Archs;
use td_rows::{Rows, read_state};
use td_supply::{Build, Supply};
use td_version::Version;

// The architectures of the example archive.
pub(crate) const TABLE: &str = "amd64 linux amd64\ni386 linux i386";

// The rows of the example archive.
pub(crate) const INSTALLED: &str = "\
bar/amd64 Installed 0 0
bar/i386 Installed 0 0
foo/amd64 Installed 0 0
foo/i386 Installed 0 1
";

// A journal that leaves a build of the example archive with its builder.
pub(crate) const LEFT: &str = "transdesk journal 1\n1 + nmu foo/amd64\n2 + claim=1 foo/amd64\n";

// Texts that are no journals over those rows, and why.
pub(crate) const NO_JOURNALS: [(&str, &str); 3] = [
    ("", "BadHeader"),
    ("transdesk journal 1\n\n", "BadLine(2)"),
    (
        "transdesk journal 1\n1 - nmu foo/amd64\n2 + dw foo/amd64 : libbar-dev\n",
        "Unlawful(2)",
    ),
];

// The number after another in a fixed sequence, by which calls are chosen.
pub(crate) fn next_number(number: u64) -> u64 {
    number
        .wrapping_mul(6_364_136_223_846_793_005)
        .wrapping_add(1_442_695_040_888_963_407)
}

// The rows of a state file that is short.
pub(crate) fn rows(alloc: Global, text: &str) -> Result<Rows, Fail>
    ensures { IfOk result (λ rows. NoneBuilt rows) }
{
    if text.len() > 1000 {
        return Err(Fail::from("a longer text than the test reads"));
    }
    Ok(read_state(alloc, text)?)
}

// Puts up two sources, and the development files of one of them on two architectures.
fn fill(supply: &mut Supply<'_>) -> Result<(), Fail>
    requires { supply.old ≡ opened (unstocked supply.old.table) }
    ensures { OnOk result (supply.new ≡ opened (stock_of supply.new)) }
{
    let base = Version::read("2.0-1")?;
    let _read = Version::read("1.2-3")?;
    let build = Some(Build {
        source: "bar",
        base,
    });
    supply.push_source("bar", "2.0-1")?;
    supply.push_source("foo", "1.2-3")?;
    supply.push("libbar-dev", Some(base), Some(0), build)?;
    supply.push("libbar-dev", Some(base), Some(1), build)?;
    Ok(())
}

// What the index of the example archive offers.
pub(crate) fn supply(alloc: Global) -> Result<Supply<'static>, Fail>
    ensures { IfOk result (λ supply. supply ≡ opened (stock_of supply)) }
{
    let archs = Archs::read(alloc, TABLE)?;
    let mut supply = Supply::new(alloc, archs);
    match fill(&mut supply) {
        Ok(()) => Ok(supply),
        Err(fail) => {
            drop(supply);
            Err(fail)
        }
    }
}
