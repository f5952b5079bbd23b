//! Texts that are cut into tokens.
ghost use Rattle.std.specs.Prelude.{◌≤◌, length};

use crate::texts::text_of;
use do_lex::{Keyword, Kind, LONGEST_SCRIPT, LexFault, Mark, Token, Tokens};
use serde_json::Value as Json;
use std::alloc::Global;
use std::test::Fail;
use test_rows::Telling;

fn word_of(kind: Kind) -> &'static str {
    match kind {
        Kind::Word => "word",
        Kind::Keyword(_) => "keyword",
        Kind::Number => "number",
        Kind::Text => "text",
        Kind::Mark(_) => "mark",
    }
}

/// How many words, keywords, numbers, texts and marks there are; the sum of the places at which they begin, and of those past
/// which they end; and the fault behind them.
#[derive(Drop)]
struct Sums {
    words: u32,
    keywords: u32,
    numbers: u32,
    texts: u32,
    marks: u32,
    at: u64,
    end: u64,
    fault: Option<LexFault>,
}

impl Sums {
    fn add(&mut self, token: &Token) {
        let count = match token.kind {
            Kind::Word => &mut self.words,
            Kind::Keyword(_) => &mut self.keywords,
            Kind::Number => &mut self.numbers,
            Kind::Text => &mut self.texts,
            Kind::Mark(_) => &mut self.marks,
        };
        *count = count.wrapping_add(1);
        self.at = self.at.wrapping_add(u64::from(token.at));
        self.end = self.end.wrapping_add(u64::from(token.end));
    }
}

fn sums_of(text: &[u8]) -> Sums
    requires { length text.now ≤ LONGEST_SCRIPT }
{
    let mut sums = Sums {
        words: 0,
        keywords: 0,
        numbers: 0,
        texts: 0,
        marks: 0,
        at: 0,
        end: 0,
        fault: None,
    };
    let mut tokens = Tokens::new(text);
    for _ in 0..=text.len() {
        match tokens.next() {
            Ok(Some(token)) => sums.add(&token),
            Ok(None) => break,
            Err(fault) => sums.fault = Some(fault),
        }
    }
    sums
}

/// `tokens TEXT`
pub(crate) fn answer_sums(alloc: Global, row: &Json, line: &mut Telling) -> Result<(), Fail> {
    let text = text_of(alloc, row)?;
    if text.len() > LONGEST_SCRIPT {
        return Err("a long text")?;
    }
    let sums = sums_of(&text);
    line.tell(format!(in alloc;
        "{} {} {} {} {}, from {} to {}",
        sums.words, sums.keywords, sums.numbers, sums.texts, sums.marks, sums.at, sums.end
    ));
    if let Some(fault) = sums.fault {
        line.tell(format!(in alloc; ", {fault:?}"));
    }
    Ok(())
}

// Tells what comes next: whether it is a token.
fn tell_next(alloc: Global, tokens: &mut Tokens, line: &mut Telling) -> bool {
    match tokens.next() {
        Ok(Some(token)) => {
            let (kind, text) = (word_of(token.kind), token.text);
            line.tell(format!(in alloc; "{kind} {text} {}-{}; ", token.at, token.end));
            return true;
        }
        Ok(None) => line.say("end "),
        Err(fault) => line.tell(format!(in alloc; "{fault:?} ")),
    }
    false
}

/// `each TEXT`: each token with its slice and its span, and three times what comes behind them.
pub(crate) fn answer_each(alloc: Global, row: &Json, line: &mut Telling) -> Result<(), Fail> {
    let text = text_of(alloc, row)?;
    if text.len() > LONGEST_SCRIPT {
        return Err("a long text")?;
    }
    let mut tokens = Tokens::new(&text);
    for _ in 0..=text.len() {
        if !tell_next(alloc, &mut tokens, line) {
            break;
        }
    }
    tell_next(alloc, &mut tokens, line);
    tell_next(alloc, &mut tokens, line);
    Ok(())
}

// Whether the keyword's text is cut into the keyword.
fn is_itself(keyword: Keyword) -> bool {
    match Tokens::new(keyword.text().as_bytes()).next() {
        Ok(Some(token)) => token.kind == Kind::Keyword(keyword),
        _ => false,
    }
}

/// `keywords`: those that are cut into themselves, and how many marks there are.
pub(crate) fn answer_keywords(line: &mut Telling) {
    for keyword in Keyword::ALL {
        if is_itself(keyword) {
            line.say(keyword.text());
            line.say(" ");
        }
    }
    line.tell(format!(in line.alloc(); "and {} marks", Mark::ALL.len()));
}
