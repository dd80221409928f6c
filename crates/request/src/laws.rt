// The laws of requests and their bytes, each a clause of a function that has nothing to do.
ghost use Rattle.request.specs.Laws.{WrittenIsBytes, OneWay};

pub fn theory_stands()
    ensures written_is_bytes { WrittenIsBytes }
    ensures one_way { OneWay }
{}
