mod ctype;
mod def;
mod expr;
mod stmt;

pub use ctype::same_type;
pub use def::same_def;
pub use expr::same_expr;
pub use stmt::same_stmt;
