// The open set, made.
ghost use Rattle.ranges.specs.OpenLaw.{open_meaning, LawOfOpen};

use super::OpenSet;

impl OpenSet {
    pub fn new() -> OpenSet
        ensures { LawOfOpen (open_meaning result) }
    {
        OpenSet
    }
}
