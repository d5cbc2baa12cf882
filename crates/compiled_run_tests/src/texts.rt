//! Texts, each a line.

/// Each construct of the language, in one thread.
pub(crate) static TEXTS: &str =
    r#"int main(void) { printf("%d %u %ld %lu %%\n", 7 / 2 - 9 % 5, 4000000000u, -5l, 3ul); return 3; }
int main(void) { signed char c = 200; unsigned short s = 70000; c += 100; s -= 5; printf("%d %d", c, s); return c; }
int main(void) { int x = 6; x <<= 2; x |= 1; x ^= 9; x &= ~4; x >>= 1; printf("%d %d %d", x, !x, -x); return 0; }
int main(void) { int x = 0; int y = x++ + ++x; y = x-- - --x; printf("%d%d%d", x, y, x ? 1 : 2); return 0; }
int f(int a, int b) { return a * 10 + b; } int main(void) { printf("%d", f(f(1, 2), f(3, 4) % 10)); return 0; }
int f(int n) { if (n < 2) return 1; return n * f(n - 1); } int main(void) { printf("%d", f(9)); return 0; }
void g(unsigned char c) { printf("%d.", c); } int main(void) { g(300); g(-1); g(5); return 0; }
int a[5] = {4, 3, 2}; int main(void) { int i; for (i = 0; i < 5; i++) { a[i] += i; if (a[i] == 4) continue; printf("%d", a[i]); } return a[4]; }
int g = 2; short h = 70000; int main(void) { g = h + g; g *= g; printf("%d %d", g, h); { int g = 1; printf("%d", g); } return 0; }
int main(void) { int i = 0; while (1) { if (i > 3) break; do { i++; } while (i < 2); printf("%d", i); } return 0; }
int main(void) { int i; int n = 0; for (i = 0; i < 4 && n < 9; i++) for (int k = i; k; k--) n += k; printf("%d", n); return 0; }
struct s { int v; long w; struct s *next; }; struct s *p; int main(void) { p = calloc(1, sizeof(struct s)); p->v = 5; p->w = p->v * 3; p->next = p; printf("%d %ld", p->next->v, p->w); free(p); return p == NULL; }
struct s { int v; }; int main(void) { struct s *a; int i; int n = 0; for (i = 0; i < 5; i++) { a = calloc(1, sizeof(struct s)); if (a) n++; } printf("%d", n); return 0; }
int f(void) { dsu_tx { dsu_update(); printf("a"); } return 1; } int main(void) { dsu_tx { f(); } dsu_update(); return f(); }
int main(void) { int x; for (int i = 0; i < 3; i++) { int x; x += i; printf("%d", x); } printf("%d", x || 0); return 0; }
long f(void) { return 4294967303l; } int main(void) { return f(); }
int main(void) { long x = -9223372036854775807l - 1; int i = 3; while (i--) printf("a%ldb%dc%%%lud%u\n", x, -2147483647 - 1, 18446744073709551615ul, 4294967295u); return 0; }"#;

/// Threads, mutexes and joins.
pub(crate) static THREADS: &str =
    r#"int n; int add(int k) { int i; for (i = 0; i < k; i++) n += 1; return k; } int main(void) { thrd_t a; thrd_t b; int r; thrd_create(&a, add, 3); thrd_create(&b, add, 4); thrd_join(a, &r); printf("%d.", r); thrd_join(b, NULL); printf("%d", n); return n; }
mtx_t m; int n; int add(int k) { mtx_lock(&m); n += k; mtx_unlock(&m); return n; } int main(void) { thrd_t a; thrd_t b; mtx_init(&m, mtx_plain); thrd_create(&a, add, 1); thrd_create(&b, add, 2); mtx_lock(&m); n = n * 2; mtx_unlock(&m); thrd_join(a, NULL); thrd_join(b, NULL); printf("%d", n); return 0; }
int w(int k) { return k + 1; } int main(void) { thrd_t t; int i; int r; int sum = 0; for (i = 0; i < 6; i++) { thrd_create(&t, w, i); thrd_join(t, &r); sum += r; } printf("%d", sum); return 0; }
int w(int k) { dsu_tx { printf("%d", k); } return 0; } int main(void) { thrd_t t; int i; for (i = 0; i < 6; i++) printf("%d", thrd_create(&t, w, i)); return 0; }
mtx_t a; mtx_t b; int other(int n) { mtx_lock(&b); mtx_lock(&a); return n; } int main(void) { thrd_t t; thrd_create(&t, other, 0); mtx_lock(&a); printf("a"); mtx_lock(&b); return 0; }"#;

/// How runs end: each trap, in `main` and in another thread, and deep calls.
pub(crate) static ENDINGS: &str =
    r#"int main(void) { int x = 2147483647; printf("a"); x = x + 1; return x; }
int z; int main(void) { return 7 / z; }
int z = 33; int main(void) { return 1 << z; }
int a[3]; int i = 3; int main(void) { a[2] = 1; return a[i]; }
int a[3]; int i = -1; int main(void) { a[i] = 4; return 0; }
struct s { int v; }; struct s *p; int main(void) { return p->v; }
struct s { int v; }; struct s *p; int main(void) { p = calloc(1, sizeof(struct s)); free(p); p->v = 1; return 0; }
struct s { int v; }; struct s *p; int main(void) { p = calloc(1, sizeof(struct s)); free(p); free(p); return 0; }
mtx_t m; int main(void) { mtx_lock(&m); mtx_lock(&m); return 0; }
mtx_t m; int main(void) { mtx_unlock(&m); return 0; }
mtx_t m; int main(void) { mtx_lock(&m); mtx_init(&m, mtx_plain); return 0; }
int w(int k) { return k; } int main(void) { thrd_t t; thrd_create(&t, w, 1); thrd_join(t, NULL); thrd_join(t, NULL); return 0; }
int f(int n) { return n ? f(n - 1) + 1 : 0; } int main(void) { return f(200); }
int f(int n) { return f(n + 1); } int main(void) { return f(0); }
int z; int w(int k) { return k / z; } int main(void) { thrd_t t; thrd_create(&t, w, 1); thrd_join(t, NULL); return 0; }"#;
