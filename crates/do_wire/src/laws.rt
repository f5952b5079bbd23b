//! Laws of values as JSON. A call costs nothing and tells its caller the law.
ghost use Rattle.do_wire.specs.Law.{JsonReadsBack};

/// A value of which nothing is `undefined` is read from its own JSON.
pub fn json_reads_back()
    ensures { JsonReadsBack }
{}
