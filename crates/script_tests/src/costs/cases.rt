//! The script whose methods are measured, and what each is run with.

/// Each method is given how many turns it takes, a list of numbers, a list of records and a record, and runs on an object
/// whose field `a` has a list of numbers, `items`.
pub(crate) const SCRIPT: &str = r#"export class Costs extends DurableObject {
  async make(turns, size) {
    let xs = []; let os = []; let r = {};
    for (let i = 0; i < size; i++) { xs.push(i); os.push({ v: i }); r["k" + i] = i; }
    this.a = { items: xs };
    return [turns, xs, os, r];
  }
  add(a, b) { return a + b; }
  async while_loop(n) { let i = 0; while (i < n) { i += 1; } return i; }
  async sum_of_list(n, xs) { let s = 0; for (const x of xs) { s += x; } return s; }
  async text_building(n) { let t = ""; for (let i = 0; i < n; i++) { t += "x"; } return t.length; }
  async record_fields(n) { let p = { a: 0, b: 1 }; let i = 0; while (i < n) { p.a += p.b; i += 1; } return p.a; }
  async helper_calls(n) { let s = 0; let i = 0; while (i < n) { s = this.add(s, 1); i += 1; } return s; }
  async read_item(n, xs) { for (let i = 0; i < n; i++) { xs[i]; } return 0; }
  async read_behind(n, xs) { for (let i = 0; i < n; i++) { xs[i + 1]; } return 0; }
  async read_own_item(n) { for (let i = 0; i < n; i++) { this.a.items[i]; } return 0; }
  async read_item_field(n, xs, os) { for (let i = 0; i < n; i++) { os[i].v; } return 0; }
  async read_key(n, xs, os, r) { for (let i = 0; i < n; i++) { r["k" + i]; } return 0; }
  async read_length(n, xs) { for (let i = 0; i < n; i++) { xs.length; } return 0; }
  async read_includes(n, xs) { for (let i = 0; i < n; i++) { xs.includes(0); } return 0; }
  async read_whole(n, xs) { let ys = 0; for (let i = 0; i < n; i++) { ys = xs; } return 0; }
  async write_item(n, xs) { for (let i = 0; i < n; i++) { xs[i] = 1; } return 0; }
  async write_push(n, xs) { for (let i = 0; i < n; i++) { xs.push(i); } return 0; }
  async write_own_item(n) { for (let i = 0; i < n; i++) { this.a.items[i] = 1; } return 0; }
  async write_item_field(n, xs, os) { for (let i = 0; i < n; i++) { os[i].v += 1; } return 0; }
  async write_key(n, xs, os, r) { for (let i = 0; i < n; i++) { r["k" + i] = 1; } return 0; }
}
"#;

/// A method, the turns of its loop, and the items of what it is given.
pub(crate) type Case = (&'static str, i64, i64);

pub(crate) const CASES: [Case; 31] = [
    ("while_loop", 20_000, 0),
    ("sum_of_list", 20_000, 20_000),
    ("text_building", 20_000, 0),
    ("record_fields", 20_000, 0),
    ("helper_calls", 20_000, 0),
    ("read_item", 1_000, 1_000),
    ("read_item", 1_000, 10_000),
    ("read_behind", 1_000, 1_000),
    ("read_behind", 1_000, 10_000),
    ("read_own_item", 1_000, 1_000),
    ("read_own_item", 1_000, 10_000),
    ("read_item_field", 1_000, 1_000),
    ("read_item_field", 1_000, 10_000),
    ("read_key", 1_000, 1_000),
    ("read_key", 1_000, 10_000),
    ("read_length", 1_000, 1_000),
    ("read_length", 1_000, 10_000),
    ("read_includes", 1_000, 1_000),
    ("read_includes", 1_000, 10_000),
    ("read_whole", 1_000, 1_000),
    ("read_whole", 1_000, 10_000),
    ("write_item", 1_000, 1_000),
    ("write_item", 1_000, 10_000),
    ("write_push", 1_000, 1_000),
    ("write_push", 1_000, 10_000),
    ("write_own_item", 1_000, 1_000),
    ("write_own_item", 1_000, 10_000),
    ("write_item_field", 1_000, 1_000),
    ("write_item_field", 1_000, 10_000),
    ("write_key", 1_000, 1_000),
    ("write_key", 1_000, 10_000),
];
