//! The texts of the two files.

/// What stands before the number of rounds.
pub const BEFORE: &str = "\
[cut(top)] int tick(void);
unsigned int state = 1;
int tick(void) { state = state * 1103515245u + 12345u; return (int)(state >> 16) & 32767; }
long rounds = ";

/// What stands after it.
pub const AFTER: &str = "\
;
[guarded_by(0)] unsigned int sum;
int work(void *p) {
 long i;
 for (i = 0; i < rounds; i++) {
  int v = tick();
  r2_lock(0);
  sum = sum * 31u + (unsigned int)v;
  r2_unlock(0);
 }
 return 0;
}
int main(void) {
 int t[4]; int i; unsigned int v; char b[11];
 for (i = 0; i < 4; i++) t[i] = r2_spawn(work, 0);
 for (i = 0; i < 4; i++) r2_join(t[i]);
 r2_lock(0);
 v = sum;
 r2_unlock(0);
 b[10] = '\\n';
 for (i = 9; i >= 0; i--) { b[i] = (char)('0' + v % 10u); v = v / 10u; }
 r2_print(b, 11);
 return 0;
}
";

/// The system file: the largest budget, and a schedule in which the threads step by turns of unequal lengths.
pub const SYSTEM: &str = "\
budget 100000000
schedule 0*7 1*5 2*3 3*11 4*2
";
