// What is promised of the first wrong byte, each a clause of a function that has nothing to do.

#![tactic(auto)]

ghost use Rattle.prefixes.specs.Verdict.{BeginsIsPrefix, CheckIsRight, OneVerdict, RoomIsEntries, WalkIsRight};

pub fn theory_stands()
    ensures check_is_right { CheckIsRight }
    ensures one_verdict { OneVerdict }
    ensures walk_is_right { WalkIsRight }
    ensures begins_is_prefix { BeginsIsPrefix }
    ensures room_is_entries { RoomIsEntries }
{}
