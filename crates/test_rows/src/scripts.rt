//! Scripts that tests share, each with the forms that its name tells.
mod forms;

pub use crate::scripts::forms::{COMPUTED, LIMITS, OPTIONS, PATHS, STORING};

pub const PUT_AND_READ: &str = r#"export class C extends DurableObject {
  async set(k, v) { this.ctx.storage.put(k, v); return v; }
  async read(k) { return await this.ctx.storage.get(k); }
}
"#;

pub const CABINET: &str = r#"export class C extends DurableObject {
  async set(k, v) { this.ctx.storage.put(k, v); return v; }
  async two() { this.ctx.storage.put("x", 1); this.ctx.storage.put("y", 2); return 3; }
  async own() { this.ctx.storage.put("n", 1); let v = await this.ctx.storage.get("n"); return v; }
  async add() { let n = await this.ctx.storage.get("n") ?? 0; this.ctx.storage.put("n", n + 1); return n + 1; }
  async slow() { let n = await this.ctx.storage.get("n") ?? 0; await fetch("x"); this.ctx.storage.put("n", n + 1); return n + 1; }
  async read(k) { return await this.ctx.storage.get(k); }
  async find(o) { return await this.ctx.storage.list(o); }
  async undo() {
    try { await this.ctx.storage.transaction(async (txn) => { txn.put("k", 9); throw "no"; }); }
    catch (e) { return [e, await this.ctx.storage.get("k")]; }
  }
  async late() { return await this.ctx.storage.transaction(async (txn) => { txn.put("k", 9); txn.rollback(); return await txn.get("k"); }); }
  async spin() { while (true) {} }
  async over() { return 9007199254740991 + 1; }
}
"#;

pub const TIMER: &str = r#"export class T extends DurableObject {
  async arm(t) { this.ctx.storage.setAlarm(t); return t; }
  async alarm(info) { let n = await this.ctx.storage.get("n") ?? 0; this.ctx.storage.put("n", n + 1); throw info.retryCount; }
  async seen() { return [await this.ctx.storage.get("n") ?? 0, await this.ctx.storage.getAlarm()]; }
}
"#;

pub const TWO_CLASSES: &str = r#"export class A extends DurableObject {
  async plain() { return await this.env.B.get(this.env.B.idFromName("b")).back(); }
  async held() { return await this.ctx.blockConcurrencyWhile(async () => { return await this.env.B.get(this.env.B.idFromName("b")).back(); }); }
  async ping() { return 7; }
}
export class B extends DurableObject {
  async back() { return await this.env.A.get(this.env.A.idFromName("a")).ping(); }
}
"#;

pub const COUNTER: &str = r#"import { DurableObject } from "cloudflare:workers";
export class Counter extends DurableObject {
  constructor(ctx, env) {
    super(ctx, env);
    ctx.blockConcurrencyWhile(async () => {
      this.value = (await ctx.storage.get("value")) || 0;
    });
  }
  async increment() { this.value++; await this.ctx.storage.put("value", this.value); return this.value; }
}
"#;

pub const RECURSION: &str = r#"export class R extends DurableObject {
  async down(n) { return await this.env.R.get(this.env.R.idFromName("r")).down(n + 1); }
}
"#;

pub const BLOCKS: &str = r#"export class B extends DurableObject {
  constructor(ctx, env) {
    super(ctx, env);
    ctx.blockConcurrencyWhile(async () => { if ((await ctx.storage.get("bad")) === true) { throw "no"; } });
  }
  async set(k, v) { this.ctx.storage.put(k, v); return v; }
  async read(k) { return await this.ctx.storage.get(k); }
  async go() { await this.ctx.blockConcurrencyWhile(async () => { this.ctx.storage.put("k", 1); throw 1; }); }
}
"#;

pub const REARMING: &str = r#"export class W extends DurableObject {
  async arm(t) { this.ctx.storage.setAlarm(t); return t; }
  async alarm(info) { this.ctx.storage.put("g", (await this.ctx.storage.getAlarm()) === null); this.ctx.storage.setAlarm(50); }
  async look() { return [await this.ctx.storage.get("g"), await this.ctx.storage.getAlarm()]; }
}
"#;

pub const SOFT_READS: &str = r#"export class D extends DurableObject {
  async soft() { let n = await this.ctx.storage.get("n", { allowConcurrency: true }) ?? 0; this.ctx.storage.put("n", n + 1); return n + 1; }
  async quick(v) { await this.ctx.storage.put("n", v, { allowUnconfirmed: true }); return v; }
  async both(v) { this.ctx.storage.put("n", v, { allowUnconfirmed: true }); this.ctx.storage.put("m", v); return v; }
}
"#;

pub const ROOM: &str = r#"export class Room extends DurableObject {
  async webSocketOpen(s, v) { return { attachment: { name: v, said: 0 } }; }
  async webSocketMessage(s, m, a) {
    let n = await this.ctx.storage.get("n") ?? 0;
    this.ctx.storage.put("n", n + 1);
    a.said += 1;
    return { send: [[s, [a.name, a.said, m]]], attachment: a };
  }
}
"#;

/// The script of this name, where there is one.
pub fn named(name: &str) -> Option<&'static str> {
    match name {
        "blocks" => Some(BLOCKS),
        "cabinet" => Some(CABINET),
        "computed" => Some(COMPUTED),
        "counter" => Some(COUNTER),
        "limits" => Some(LIMITS),
        "options" => Some(OPTIONS),
        "paths" => Some(PATHS),
        "put and read" => Some(PUT_AND_READ),
        "rearming" => Some(REARMING),
        "recursion" => Some(RECURSION),
        "room" => Some(ROOM),
        "soft reads" => Some(SOFT_READS),
        "storing" => Some(STORING),
        "timer" => Some(TIMER),
        "two classes" => Some(TWO_CLASSES),
        _ => None,
    }
}
