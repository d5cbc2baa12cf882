//! The verifier passes the code of functions at their limits, and of a text with as many tokens as there may be.
use crate::verdicts::passed;
use std::alloc::Global;
use std::test::Fail;

/// A function with so many statements of three tokens. It has ten other tokens.
fn add_function(text: &mut String, name: &str, statements: usize) -> Result<(), Fail> {
    write!(text, "int {name}(void) {{ ")?;
    for _ in 0..statements {
        text.push_str("g++; ")?;
    }
    text.push_str("return 0; }\n")?;
    Ok(())
}

/// A text with so many functions of 4,096 tokens.
fn long_functions(alloc: Global, functions: usize) -> Result<String, Fail> {
    let mut text = String::new(alloc);
    text.push_str("int g;\n")?;
    for number in 0..functions {
        let name = format!(in alloc; "f{number}")?;
        add_function(&mut text, name.as_str(), 1362)?;
    }
    Ok(text)
}

#[test]
fn a_function_with_as_many_tokens_as_may_be(rt: HostRuntime) -> Result<(), Fail> {
    let mut text = long_functions(rt.alloc(), 1)?;
    text.push_str("int main(void) { return f0(); }")?;
    let functions = passed(rt.alloc(), text.as_str())?;
    assert_eq!(rt; functions, 2);
    Ok(())
}

/// 15 functions of 4,096 tokens, three tokens of a global and 4,093 of `main` are 65,536.
#[test]
fn a_text_with_as_many_tokens_as_may_be(rt: HostRuntime) -> Result<(), Fail> {
    let mut text = long_functions(rt.alloc(), 15)?;
    add_function(&mut text, "main", 1361)?;
    let functions = passed(rt.alloc(), text.as_str())?;
    assert_eq!(rt; functions, 16);
    Ok(())
}

/// 61 arguments before one that needs three values are a need of 64; the code has 65 words on its stack, since the step of an
/// element keeps its index too.
fn deep_print(alloc: Global) -> Result<String, Fail> {
    let mut format = String::new(alloc);
    let mut arguments = String::new(alloc);
    for _ in 0..61 {
        format.push_str("%d ")?;
        arguments.push_str("1, ")?;
    }
    let format = format.as_str();
    let arguments = arguments.as_str();
    Ok(format!(in alloc;
        "int a[3]; int main(void) {{ printf(\"{format}%d\", {arguments}a[2]++); return 0; }}"
    )?)
}

#[test]
fn an_expression_with_the_greatest_need(rt: HostRuntime) -> Result<(), Fail> {
    let text = deep_print(rt.alloc())?;
    let functions = passed(rt.alloc(), text.as_str())?;
    assert_eq!(rt; functions, 1);
    Ok(())
}

/// A function whose 64 variables are all in scope at once.
fn many_variables(alloc: Global) -> Result<String, Fail> {
    let mut text = String::new(alloc);
    text.push_str("int main(void) { ")?;
    for number in 0..64 {
        write!(text, "int v{number} = {number}; ")?;
    }
    text.push_str("while (v63) v63--; return v63; }")?;
    Ok(text)
}

#[test]
fn as_many_variables_as_may_be(rt: HostRuntime) -> Result<(), Fail> {
    let text = many_variables(rt.alloc())?;
    let functions = passed(rt.alloc(), text.as_str())?;
    assert_eq!(rt; functions, 1);
    Ok(())
}
