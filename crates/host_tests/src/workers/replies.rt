//! Lines of many objects, and the replies to them.
use std::alloc::Global;
use std::fmt::Write;
use std::test::Fail;

/// Calls of sixteen objects in turn, each of which puts its own number.
pub(crate) fn many_lines(alloc: Global, count: u32) -> Result<String, Fail> {
    let mut input = String::new(alloc);
    for line in 1..=count {
        writeln!(
            input,
            "[\"call\",{},\"C\",\"o{}\",\"set\",[\"k\",{}]]",
            line,
            line % 16,
            line
        )?;
    }
    Ok(input)
}

/// How many of so many calls have one reply with the number that they put, and how many lines are none of these.
pub(crate) fn replied(alloc: Global, output: &str, count: u32) -> Result<(u32, u32), Fail> {
    let mut seen = vec![in alloc; false; count as usize]?;
    let mut replied: u32 = 0;
    let mut others: u32 = 0;
    for line in output.lines() {
        match own_reply(line).and_then(|number| seen.get_mut(number.wrapping_sub(1) as usize)) {
            Some(place) if !*place => {
                *place = true;
                replied = replied.wrapping_add(1);
            }
            _ => others = others.wrapping_add(1),
        }
    }
    Ok((replied, others))
}

// The number of a reply whose value it is too.
fn own_reply(line: &str) -> Option<u32> {
    let rest = line.strip_prefix("[\"reply\",")?;
    let (number, value) = rest.split_once(',')?;
    if value.strip_suffix("]") == Some(number) {
        number.parse::<u32>().ok()
    } else {
        None
    }
}
