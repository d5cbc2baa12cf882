//! An install.
ghost use Rattle.std.specs.Prelude.{◌≡◌, ◌+◌, ◌<◌, ◌^◌, List};
ghost use Rattle.c_tree.specs.BareDef.{BareDef};
ghost use Rattle.code_runs.specs.CodeData.{Names};
ghost use Rattle.code_runs.specs.CodeInstalls.{Installs};
ghost use Rattle.code_runs.specs.CodeThreads.{CodeWorld};
ghost use Rattle.word_installs.specs.NewRows.{with_rows};
ghost use Rattle.word_installs.specs.Prepared.{ArePrepared, installed, without_holders};

use crate::rows::NewRow;
use word_data::WordData;

/// Installs a newer text: rows that were prepared are put in place, nobody holds the mutexes with the numbers `gone`, which the text
/// doesn't have, and the text is the newest version. Objects stay as they are. It takes no memory, and time linear in the rows and
/// numbers.
pub fn install(shared: &mut WordData, rows: Vec<NewRow>, gone: &[u32])
    requires { shared.old.version + 1 < 2 ^ 32 }
    ensures exact { shared.new ≡ installed rows.items gone.now shared.old }
    ensures installs { (texts : List (List BareDef)) (names : Names) (q : List BareDef) (w : CodeWorld) → w.shared ≡ shared.old
        → ArePrepared texts names q shared.old rows.items gone.now → Installs texts names q w (record w { shared = shared.new }) }
{
    put_rows(shared, rows);
    let_go(shared, gone);
    shared.next_version();
}

/// Puts rows in place.
fn put_rows(shared: &mut WordData, rows: Vec<NewRow>)
    ensures { shared.new ≡ with_rows rows.items shared.old }
{
    for row in rows {
        shared.set_row(row.number, row.words);
    }
}

/// Nobody holds the mutexes with some numbers any more.
fn let_go(shared: &mut WordData, gone: &[u32])
    ensures { shared.new ≡ without_holders gone.now shared.old }
{
    for n in gone {
        shared.let_go(*n);
    }
}
