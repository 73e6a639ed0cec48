// A program of three threads: one takes what a sensor gives, one counts it, and one prints the counts.
pub(crate) const SENSOR_PROGRAM: &[u8] = b"// sensor node
type Stat { count, sum, most }
object st: Stat;
queue raw[8] input 0;
queue good[4];
semaphore lamp = 0 max 4;
fn scale(v) { return v * 3 / 2 + 1; }
thread sample() priority 3 {
  let ok = 0; let v = 0;
  ploop {
    receive raw, 4294967295 -> ok, v;
    if v < 1000 { v = scale(v); send good, v, 5 -> ok; }
  }
}
thread filter() priority 2 {
  let ok = 0; let v = 0; let n = 0;
  ploop {
    receive good, 50 -> ok, v;
    if ok {
      atomic -> ok, n {
        st.count = st.count + 1;
        st.sum = st.sum + v;
        if v > st.most { st.most = v; }
        give st.count;
      }
      if n % 10 == 0 { give lamp -> ok; }
    }
  }
}
thread logger() priority 1 {
  let ok = 0; let c = 0; let s = 0; let t = 0;
  ploop {
    take lamp, 100 -> ok;
    if ok {
      atomic -> ok, c, s { give st.count, st.sum; }
      now -> t;
      print t, \" \", c, \" \", s;
    }
  }
}
start sample();
start filter();
start logger();
";
