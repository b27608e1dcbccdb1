//! Rows that are watched under groups: their counts as the rows change, and what isn't watched. By
//! hand from the rows of the example archive whose transition has two levels.
use super::script::{Played, are_played};
use std::test::Fail;

// The rows of that archive.
const TWO_LEVELS: &str = "\
pa/amd64 Installed 0 0
qb/amd64 Installed 0 0
rc/amd64 Installed 0 0
sd/amd64 Installed 0 0
te/amd64 Installed 0 0
";

const WATCHED: &str = "\
installed 0 => None
watch 3 pa/amd64=1 qb/amd64=0 rc/amd64=2 sd/amd64=2 => watched
installed 0 => Some(1)
installed 1 => Some(1)
installed 2 => Some(2)
installed 3 => None
nmu qb . amd64 => entry 1
installed 0 => Some(0)
undo 1 => Ok(())
installed 0 => Some(1)
nmu qb rc te . amd64 => entry 2
nmu qb sd . amd64 => entry 3, qb/amd64 State(NeedsBuild)
installed 0 => Some(0)
installed 2 => Some(0)
claim 1 rc/amd64 => true
finish 1 built => Ok(5)
installed 2 => Some(0)
arrive rc/amd64 => Ok(6)
installed 2 => Some(1)
installed 1 => Some(1)
";

const WATCHED_ANEW: &str = "\
watch 2 pa/amd64=1 qb/amd64=0 => watched
nmu qb . amd64 => entry 1
watch 1 zz/amd64=0 pa/amd64=1 pa/amd64=0 => NoSuchRow zz/amd64
watch 1 pa/amd64=1 qb/amd64=0 pa/amd64=0 => Twice pa/amd64
watch 1 qb/amd64=0 pa/amd64=1 => BadGroup pa/amd64
installed 0 => Some(0)
installed 1 => Some(1)
watch 1 qb/amd64=0 te/amd64=0 => watched
installed 0 => Some(1)
installed 1 => None
undo 1 => Ok(())
installed 0 => Some(2)
";

const COUNTED: [Played<'static>; 2] = [
    (
        TWO_LEVELS,
        WATCHED,
        "transdesk journal 2\n\
         1 - nmu qb/amd64\n\
         2 + nmu qb/amd64 rc/amd64 te/amd64\n\
         3 + nmu sd/amd64\n\
         4 + claim=1 rc/amd64\n\
         5 + built=1 rc/amd64\n\
         6 + arrive rc/amd64\n",
    ),
    (
        TWO_LEVELS,
        WATCHED_ANEW,
        "transdesk journal 2\n1 - nmu qb/amd64\n",
    ),
];

#[test]
fn installed_rows_are_counted_by_group_as_they_change(rt: HostRuntime) -> Result<(), Fail> {
    are_played(&rt, rt.alloc(), &COUNTED)
}
