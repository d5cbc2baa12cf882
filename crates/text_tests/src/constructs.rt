//! The verifier passes the code of a text with each construct of the language.
use crate::verdicts::passed;
use std::test::Fail;

static TEXT: &str = "#include <stdio.h>
#include <threads.h>
#include \"dsu.h\"

struct node { int value; struct node *next; thrd_t owner; unsigned char tag; };
struct node *head;
struct node *nodes[4];
static int total = 3;
unsigned long wide = 0xfffffffful;
char small = 'a';
short table[8] = { 1, 2, -3, };
int counts[4];
thrd_t threads[2];
thrd_t one;
mtx_t guard;

int work(int n);
void nothing(void) { }
void leaves(int n) { if (n) return; total = n; }
struct node *none(void) { return NULL; }
thrd_t same(thrd_t t) { return t; }

int work(int n) {
  struct node *own = calloc(1, sizeof(struct node));
  own->value = n;
  own->next = head;
  own->tag = 300;
  own->tag++;
  ++own->value;
  own->value <<= 2;
  mtx_lock(&guard);
  head = own;
  total += own->value;
  mtx_unlock(&guard);
  dsu_update();
  return own->value - n;
}

long operators(int a, unsigned b, long c, char d, short e, unsigned char f, unsigned short g, unsigned long h) {
  long r = 0;
  r = a + b; r = a - c; r = a * d; r = b / 2; r = c % 3; r = a & e; r = f | g; r = g ^ h; r = a << 3; r = c >> 1;
  r = a < b; r = c > d; r = e <= f; r = g >= h; r = a == c; r = b != h;
  r += a; r -= b; r *= c; r /= 3; r %= 7; r <<= 1; r >>= 1; r &= d; r |= e; r ^= f;
  r = +a; r = -d; r = ~e; r = !f; r = !!g;
  r = (char)a; r = (unsigned short)c; r = (unsigned)h; r = (long)(signed char)300;
  r = a && b; r = c || d; r = a ? b : c; r = !a ? d : e;
  r = d++; r = --e; f++; --g; d += 200; e = f = g;
  a = 'x'; b = '\\0'; c = 2147483648; h = 0x80000000u;
  return r + (a = 1);
}

int loops(int n) {
  int sum = 0, count;
  for (count = 0; count < n; count++) {
    int twice = 2 * count;
    if (twice == 4) continue;
    if (twice > 40) break;
    sum += twice;
  }
  for (int i = 0, j = n; i < j; i++) { --j; sum++; }
  for (;;) { int kept = sum; if (!(kept > 3)) { break; } else sum = kept - 1; }
  while (sum < 100) { sum += 7; { int sum = 3; sum++; } }
  do { sum--; if (sum == 50) continue; } while (!(sum < 40));
  ;
  return sum;
}

int handles(struct node *a, struct node *b) {
  struct node *c = a ? a : b;
  if (a == b || a != NULL || NULL == b) c = NULL;
  while (c && c->next) c = c->next;
  nodes[0] = c;
  nodes[table[1] & 3] = nodes[0] ? nodes[0] : head;
  table[total & 7] += small;
  table[2]++;
  c = head;
  head = c->next;
  free(c);
  return a == NULL;
}

int transactions(int n) {
  dsu_tx {
    int part = n;
    dsu_tx { part = work(part); dsu_update(); }
    while (part > 0) { part--; if (part == 3) break; dsu_tx { total++; } }
    if (part) { total = part; } else { dsu_tx { } }
  }
  return total;
}

int main(void) {
  int got;
  thrd_t t;
  mtx_init(&guard, mtx_plain);
  if (thrd_create(&t, work, 5) != thrd_success) return thrd_error;
  thrd_create(&threads[1], work, total);
  thrd_create(&one, work, got = 3);
  thrd_join(same(t), &got);
  thrd_join(threads[1], NULL);
  thrd_join(one, &counts[3]);
  head->owner = t;
  nothing();
  leaves(got);
  printf(\"plain \" \"joined\\n\");
  printf(\"%d %u %ld %lu %%\\n\", got, 3u, 4l, wide);
  return transactions(loops(got)) + handles(none(), head) + (int)operators(1, 2, 3, 4, 5, 6, 7, 8);
}
";

#[test]
fn each_construct_passes(rt: HostRuntime) -> Result<(), Fail> {
    let functions = passed(rt.alloc(), TEXT)?;
    assert_eq!(rt; functions, 10);
    Ok(())
}
