//! The code of texts. What is owned on the way is owned by a function of its own, which lends it on.
use c_front::read_text;
use c_tree::Program;
use code_listing::listing;
use resolved_tree::Trees;
use std::alloc::Global;
use std::test::Fail;
use text_code::{Body, compile};

/// The functions of a text with their code.
fn code_of(alloc: Global, text: &str) -> Result<String, Fail> {
    let Ok(typed) = read_text(alloc, text.as_bytes()) else {
        return Err(Fail::new("the text has a fault"));
    };
    let code = in_program(alloc, typed.program());
    drop(typed);
    code
}

fn in_program(alloc: Global, program: &Program) -> Result<String, Fail> {
    let mut trees = Trees::new(alloc);
    let code = in_trees(alloc, program, &mut trees);
    drop(trees);
    code
}

fn in_trees(alloc: Global, program: &Program, trees: &mut Trees) -> Result<String, Fail> {
    let bodies = compile(alloc, trees, program.definitions.as_slice())?;
    shown(alloc, trees, bodies.as_slice())
}

fn shown(alloc: Global, trees: &Trees, bodies: &[Body]) -> Result<String, Fail> {
    let mut text = String::new(alloc);
    for body in bodies {
        let name = trees.text(body.name);
        let lines = listing(alloc, trees, body.code.as_slice())?;
        let parameters = body.parameters;
        write!(text, "{name} {parameters}\n{lines}")?;
    }
    Ok(text)
}

#[test]
fn functions_are_compiled_in_order(rt: HostRuntime) -> Result<(), Fail> {
    let code = code_of(
        rt.alloc(),
        "int g; int f(int a, int b) { return b; } int main(void) { return f(1, 2); }",
    )?;
    assert!(rt;
        code.as_str()
            == "f 2
  0 check_in entry @0
  1 load 0
  2 halt return @1
  3 constant i32 0
  4 halt return @2
main 0
  0 check_in entry @0
  1 constant i32 1
  2 constant i32 2
  3 halt call f 2 @1
  4 check_in call @2
  5 halt return @3
  6 constant i32 0
  7 halt return @4
"
    );
    Ok(())
}
