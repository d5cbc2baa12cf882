//! Texts that are loaded. What is owned on the way is owned by a function of its own, which lends it on.
use crate::acts::acts_of;
use crate::shown_tables::add_tables;
use c_front::read_text;
use c_types::Typed;
use image_load::{LoadedCode, has_few_names, load};
use std::alloc::Global;
use std::test::Fail;

static TEXT: &str = "#include <stdio.h>
#include <threads.h>
#include \"dsu.h\"
struct other { int first; };
struct node { int value; struct node *next; };
mtx_t spare;
int total = 3;
mtx_t guard;
short table[3] = { 1, -2, };
int work(int n) {
  mtx_lock(&guard);
  total = n;
  mtx_unlock(&guard);
  return table[1];
}
void touch(struct node *a) {
  a->next = a;
  table[0] = a->value;
  free(a);
}
int main(void) {
  thrd_t t;
  int got;
  struct node *own = calloc(1, sizeof(struct node));
  mtx_init(&guard, mtx_plain);
  touch(own);
  thrd_create(&t, work, 5);
  thrd_join(t, &got);
  while (got) { got--; dsu_update(); }
  dsu_tx { printf(\"%d\\n\", total); }
  return 0;
}
";

static OLD: &str = "#include <stdio.h>
#include <threads.h>
#include \"dsu.h\"
struct pair { int a; };
int total = 3;
mtx_t guard;
mtx_t last;
int step(int n) {
  total = n;
  return n;
}
int main(void) {
  mtx_lock(&last);
  step(1);
  return 0;
}
";

static NEW: &str = "#include <stdio.h>
#include <threads.h>
#include \"dsu.h\"
unsigned char more[2] = { 7, 250 };
struct pair { struct pair *next; int a; };
mtx_t last;
int total = 3;
int helper(struct pair *p) {
  return p->a;
}
int step(int n) {
  more[1] = n;
  return n + 1;
}
int main(void) {
  mtx_lock(&last);
  step(helper(calloc(1, sizeof(struct pair))));
  return 0;
}
";

/// The acts of a text, the number of its `main`, how many mutexes it has, how many bytes it prints at once at most, and the height of
/// its highest stack; then the words of its first cells, a line a row, and its tables.
fn loaded(alloc: Global, text: &str) -> Result<String, Fail> {
    let typed = typed(alloc, text)?;
    let texts = vec![in alloc; typed]?;
    shown(alloc, texts)
}

/// The same of two texts.
fn both_loaded(alloc: Global, first: &str, second: &str) -> Result<String, Fail> {
    let mut texts = Vec::new(alloc);
    texts.push(typed(alloc, first)?)?;
    texts.push(typed(alloc, second)?)?;
    shown(alloc, texts)
}

fn typed(alloc: Global, text: &str) -> Result<Typed, Fail> {
    match read_text(alloc, text.as_bytes()) {
        Ok(typed) => Ok(typed),
        Err(_) => Err(Fail::new("the text has a fault")),
    }
}

fn shown(alloc: Global, texts: Vec<Typed>) -> Result<String, Fail> {
    if texts.is_empty() {
        return Err(Fail::new("there is no text"));
    }
    let Ok(code) = load(alloc, texts.as_slice()) else {
        return Err(Fail::new("the texts aren't loaded"));
    };
    let shown = in_code(alloc, &code);
    drop(code);
    shown
}

fn in_code(alloc: Global, code: &LoadedCode) -> Result<String, Fail> {
    let mut shown = acts_of(alloc, &code.image)?;
    let main = code.image.main;
    let mutexes = code.image.mutexes;
    let longest = code.image.longest_print;
    let highest = code.image.highest_stack;
    write!(
        shown,
        "main {main} mutexes {mutexes} longest {longest} highest {highest}\n"
    )?;
    for row in code.cells.as_slice() {
        let words = row.as_slice();
        write!(shown, "{words:?}\n")?;
    }
    add_tables(&mut shown, code)?;
    Ok(shown)
}

#[test]
fn each_kind_of_stop(rt: HostRuntime) -> Result<(), Fail> {
    let shown = loaded(rt.alloc(), TEXT)?;
    assert!(rt;
        shown.as_str()
            == "work 0
1 lock 1 -> 2
4 write_global 0 -> 5
6 unlock 1 -> 7
9 read_element 1 -> 10
10 return 0 -> 11
12 return 0 -> 13
touch 0
3 write_field 1 -> 4
7 read_field 0 -> 8
9 write_element 1 -> 10
12 free 0 -> 13
15 return 0 -> 16
main 0
7 new 1 -> 8
9 init 1 -> 10
12 call 101 -> 14
16 spawn 0 -> 17
22 join 0 -> 23
32 pass 0 -> 34
34 pass 0 -> 26
35 begin 0 -> 37
37 read_global 0 -> 38
38 print 1 -> 39
40 end 0 -> 42
43 return 0 -> 44
45 return 0 -> 46
main 2 mutexes 2 longest 21 highest 2
[3]
[1, 18446744073709551614, 0]
callees work touch main
text 0 1 2
total [3]
table [1, 18446744073709551614, 0]
other 1
node 2
gone []
"
    );
    Ok(())
}

#[test]
fn two_texts_share_their_names(rt: HostRuntime) -> Result<(), Fail> {
    let shown = both_loaded(rt.alloc(), OLD, NEW)?;
    assert!(rt;
        shown.as_str()
            == "step 0
2 write_global 0 -> 3
5 return 0 -> 6
7 return 0 -> 8
main 0
1 lock 1 -> 2
4 call 1 -> 6
8 return 0 -> 9
10 return 0 -> 11
helper 1
2 read_field 1 -> 3
3 return 0 -> 4
5 return 0 -> 6
step 1
4 write_element 1 -> 5
9 return 0 -> 10
11 return 0 -> 12
main 1
1 lock 1 -> 2
3 new 0 -> 4
4 call 201 -> 6
6 call 1 -> 8
10 return 0 -> 11
12 return 0 -> 13
main 1 mutexes 2 longest 0 highest 2
[3]
[]
callees step main helper
text 0 1 .
total [3]
.
pair 1
gone []
text 3 4 2
total [3]
more [7, 250]
pair 2
gone [0]
"
    );
    Ok(())
}

#[test]
fn texts_have_few_names(rt: HostRuntime) -> Result<(), Fail> {
    let alloc = rt.alloc();
    let first = typed(alloc, OLD)?;
    let second = typed(alloc, NEW)?;
    let offers = vec![in alloc; second]?;
    let few = has_few_names(alloc, &first, offers.as_slice())?;
    assert!(rt; few);
    Ok(())
}
