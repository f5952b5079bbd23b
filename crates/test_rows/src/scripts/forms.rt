//! Scripts of the tests of tasks: forms that the others don't have, and limits.

pub const COMPUTED: &str = r#"export class F extends DurableObject {
  square(n) { return n * n; }
  async sums(n) {
    let sum = 0;
    for (let i = 0; i < n; i++) {
      if (i === 2) continue;
      if (i === 5) break;
      sum += this.square(i);
    }
    return sum;
  }
  async words(t) {
    let r = { first: "", rest: [] };
    for (const w of t.split(" ")) {
      if (r.first === "") r.first = w;
      else r.rest.push(w);
    }
    r.rest[1] = "x";
    return [r, r.rest.length];
  }
  async caught(v) {
    try {
      try { throw v; } catch (e) { throw e + 1; }
    } catch (e) { return [e, v]; }
  }
  async lazy(o) { return [o.a ?? 1, o.a || 2, o.a && 3, o.a === undefined ? 4 : 5]; }
  async copies() { let a = [1]; let b = a; let n = b.push(2); return [a, b, n]; }
  async hides(x) { let y = x; { let x = 2; y += x; x = 9; } return [x, y]; }
  async order() { let i = 0; let a = [5, 6]; a[i] += i + 10; i++; a[i] = a[0] - i; return a; }
  async times() { let t = Date.now(); await fetch(t); return [t, Date.now()]; }
  async fails() { this.a = 1; this.ctx.storage.put("k", 1); this.x.y = 2; }
  async keeps() { this.log = ["a"]; await fetch(this.log); this.log.push("b"); return this.log.length; }
}
"#;

pub const PATHS: &str = r#"export class P extends DurableObject {
  async reads(xs, o) {
    let i = 1;
    let k = "k";
    return [xs[i], xs[0], o["k"], o[k], xs.length, xs[i].length, o[k].n, o["none"]];
  }
  async over(xs) {
    let sum = 0;
    for (let i = 0; i < xs.length; i++) sum += xs[i].n;
    return [sum, xs[xs.length], xs[9], xs[(0)].n];
  }
  async own(i, k) {
    return [this.f.g, this.items[i], this.items[0].n, this.f["g"], this.f[k], this.items.length, this.none];
  }
  async thrown(o) {
    let i = 0;
    let u;
    let n = "";
    try { return o.none.k; } catch (e) { n += e.name; }
    try { return o.none[i]; } catch (e) { n += e.name; }
    try { return this.none[i]; } catch (e) { n += e.name; }
    try { return u[i]; } catch (e) { n += e.name; }
    try { return u["k"]; } catch (e) { n += e.name; }
    try { return u.k; } catch (e) { n += e.name; }
    return n;
  }
  async apart(xs) {
    let i = 1;
    let a = xs[0];
    let b = xs[i];
    a.push(8);
    b.push(9);
    return [xs, a, b];
  }
}
"#;

pub const OPTIONS: &str = r#"export class O extends DurableObject {
  async got(k, o) { return await this.ctx.storage.get(k, o); }
  async listed(o, p) { return await this.ctx.storage.list(o, p); }
  async armed(o) { return await this.ctx.storage.getAlarm(o); }
  async stored(k, v, o) { this.ctx.storage.put(k, v, o); await this.ctx.storage.sync(); return v; }
  async entries(r, o) { this.ctx.storage.put(r, o); }
  async gone(k, o) { return await this.ctx.storage.delete(k, o); }
  async arm(t, o) { this.ctx.storage.setAlarm(t, o); }
  async disarm(o) { this.ctx.storage.deleteAlarm(o); }
  async wiped(o) { await this.ctx.storage.deleteAll(o); }
  async idle(o) { this.ctx.storage.put("a", 1, o); this.ctx.storage.put({}); this.ctx.storage.delete([]); }
  async mixed(o) { this.ctx.storage.put("a", 1, o); this.ctx.storage.delete("b"); this.ctx.storage.put("c", 3, o); }
  async apart(o) {
    this.ctx.storage.put("a", 1, o);
    await this.ctx.storage.transaction(async (txn) => { txn.put("b", 2, o); await txn.get("c", o); });
    this.ctx.storage.put("d", 4, o);
  }
  note(o) { this.ctx.storage.put("n", 1, o); }
  async inside(o) {
    return await this.ctx.storage.transaction(async (txn) => { this.note(o); txn.put("b", 2, o); return 1; });
  }
  async alarm(info) {}
}
"#;

pub const STORING: &str = r#"export class S extends DurableObject {
  async swap() {
    this.ctx.storage.put("a", 0);
    let r = await this.ctx.storage.transaction(async (txn) => {
      let old = await txn.get("a");
      txn.put("b", old);
      let gone = await txn.delete("b");
      return [old, gone, await txn.get("b")];
    });
    return r;
  }
  async first() {
    return await this.ctx.storage.transaction(async (txn) => {
      txn.delete("a");
      return await txn.list({ limit: 1 });
    });
  }
  async empty() { return await this.ctx.storage.transaction(async (txn) => { return await txn.get("a"); }); }
  async gone(k) { return await this.ctx.storage.delete(k); }
  async idle() { this.ctx.storage.put("k", 1); return await this.ctx.storage.delete([]); }
  async synced() { this.ctx.storage.put("k", 1); await this.ctx.storage.sync(); return 1; }
  async many() { return await this.ctx.storage.get(["b", "a"]); }
  async wiped() { await this.ctx.storage.deleteAll(); this.ctx.storage.deleteAlarm(); }
  async note() { this.ctx.storage.put("a", 1); }
  async twice() { await this.note(); this.ctx.storage.put("b", 2); return 2; }
  async inner() { this.ctx.storage.put("a", 1); return await this.ctx.storage.get("b"); }
  async outer() { let v = await this.inner(); this.ctx.storage.put("c", v); return v; }
  async arm() { this.ctx.storage.put("k", 1); this.ctx.storage.setAlarm(5); }
  async held() { await this.ctx.blockConcurrencyWhile(async () => { await this.again(); }); }
  async again() { try { await this.ctx.blockConcurrencyWhile(async () => {}); } catch (e) { throw [e.message]; } }
}
"#;

pub const LIMITS: &str = r#"export class L extends DurableObject {
  async plain(n) { while (n) n -= 1; return n; }
  async minus(n) { while (n) n -= 1; return -n; }
  async fetches() { try { while (true) { this.ctx.storage.put("a", 1); await fetch(1); } } catch (e) { return e; } }
  async reads() { while (true) await this.ctx.storage.get("k"); }
  async deep(n) { return n === 0 ? "deep" : await this.deep(n - 1); }
}
"#;
