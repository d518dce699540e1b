// The table of outside rows, and its four statements.
ghost use Rattle.std.specs.Prelude.{◌≤◌, IfOk, IfSome};

use qc_base::Amount;
use sqlite::types::ValueRef;
use sqlite::{Alter, Connection, Error, Statement};

const CREATE: &str =
    "CREATE TABLE IF NOT EXISTS outside (resource TEXT NOT NULL, name TEXT NOT NULL, \
    amount INTEGER NOT NULL, PRIMARY KEY (resource, name)) STRICT";

const UPSERT: &str = "INSERT INTO outside (resource, name, amount) VALUES (?1, ?2, ?3) \
    ON CONFLICT (resource, name) DO UPDATE SET amount = excluded.amount";

const SELECT: &str = "SELECT amount FROM outside WHERE resource = ?1 AND name = ?2";

const UPDATE: &str = "UPDATE outside SET amount = ?3 WHERE resource = ?1 AND name = ?2";

// A connection on the table, and what was prepared on it once. Each statement is a transaction of its own, which is
// committed and synced when its call returns Ok.
#[derive(Drop)]
pub(crate) struct Table<S: Alter> {
    connection: Connection<S>,
    upsert: Statement,
    select: Statement,
    update: Statement,
}

impl<S: Alter + Drop> Table<S> {
    // The table of this database, which is made where it isn't there.
    pub(crate) fn over(mut connection: Connection<S>) -> Result<Table<S>, Error> {
        connection.execute(CREATE, &[])?;
        let upsert = connection.prepare(UPSERT)?;
        let select = connection.prepare(SELECT)?;
        let update = connection.prepare(UPDATE)?;
        Ok(Table {
            connection,
            upsert,
            select,
            update,
        })
    }
}

impl<S: Alter> Table<S> {
    // Makes the row, or sets it.
    pub(crate) fn make<'row>(
        &mut self,
        resource: &'row [u8],
        name: &'row [u8],
        amount: u64,
    ) -> Result<(), Error>
        requires { amount ≤ 1000000000000000 }
    {
        let row = [
            ValueRef::Text(resource),
            ValueRef::Text(name),
            ValueRef::Int(amount as i64),
        ];
        self.upsert.execute(&mut self.connection, &row)?;
        Ok(())
    }

    // The amount of the row, where it is there. What is no amount is out of range.
    pub(crate) fn get<'row>(
        &mut self,
        resource: &'row [u8],
        name: &'row [u8],
    ) -> Result<Option<u64>, Error>
        ensures bound { IfOk result (λ found. IfSome found (λ n. n ≤ 1000000000000000)) }
    {
        let key = [ValueRef::Text(resource), ValueRef::Text(name)];
        let row = match self.select.query_row(&mut self.connection, &key) {
            Ok(row) => row,
            Err(Error::QueryReturnedNoRows) => return Ok(None),
            Err(error) => return Err(error),
        };
        match Amount::new(row.get(0)?) {
            Some(amount) => Ok(Some(amount.get())),
            None => Err(Error::IntegralValueOutOfRange(0)),
        }
    }

    // Sets a row that is there, and says whether it is.
    pub(crate) fn put<'row>(
        &mut self,
        resource: &'row [u8],
        name: &'row [u8],
        amount: u64,
    ) -> Result<bool, Error>
        requires { amount ≤ 1000000000000000 }
    {
        let row = [
            ValueRef::Text(resource),
            ValueRef::Text(name),
            ValueRef::Int(amount as i64),
        ];
        let set = self.update.execute(&mut self.connection, &row)?;
        Ok(set > 0)
    }
}
