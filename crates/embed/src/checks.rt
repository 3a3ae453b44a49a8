// A shelf checked, and a query.
ghost use Rattle.shelf.specs.Check.{checked};
ghost use Rattle.query.specs.Query.{asked};
ghost use Rattle.embed.specs.Report.{Reports, giving};

// Checks a shelf: numbers 6, 7, 8. Stores the offset; 0 for a sound shelf.
#[unsafe(no_mangle)]
pub extern "C" fn tagmurlen_check(bytes: &[u8], value: &mut u64) -> u32
    ensures { Reports (giving (λ ls. 0) (checked bytes.now)) result value.new }
{
    let answer = shelf::check::check(bytes).map(|()| 0);
    crate::report::tell(answer, value)
}

// Checks a query: numbers 1 to 5. Stores the offset; k, the rows that a search wants lent, for a right query.
#[unsafe(no_mangle)]
pub extern "C" fn tagmurlen_check_query(bytes: &[u8], value: &mut u64) -> u32
    ensures { Reports (giving (λ x. x.k) (asked bytes.now)) result value.new }
{
    let answer = query::read::read_query(bytes).map(|asked| asked.k as usize);
    crate::report::tell(answer, value)
}
