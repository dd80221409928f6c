// The laws of items and their encoding, each a clause of a function that has nothing to do.

#![tactic(auto)]

ghost use Rattle.laws.specs.Laws.{AtTheLimits, DecodedIsEncoded, EncodedIsBytes, EncodedIsDecoded, InsideIsShorter, KeysInOrder, MapsByValues, OneWay, SameBytes, TakesNoMore, Utf8ByCharacters};

pub fn theory_stands()
    ensures encoded_is_decoded { EncodedIsDecoded }
    ensures decoded_is_encoded { DecodedIsEncoded }
    ensures takes_no_more { TakesNoMore }
    ensures one_way { OneWay }
    ensures same_bytes { SameBytes }
    ensures maps_by_values { MapsByValues }
    ensures keys_in_order { KeysInOrder }
    ensures encoded_is_bytes { EncodedIsBytes }
    ensures inside_is_shorter { InsideIsShorter }
    ensures utf8_by_characters { Utf8ByCharacters }
    ensures at_the_limits { AtTheLimits }
{}
