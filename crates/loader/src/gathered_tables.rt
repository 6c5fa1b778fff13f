//! The cards and rows of the records read so far.
ghost use Rattle.std.specs.Prelude.{◌≡◌, IfErr, IfOk, IsSome, None, OnOk, false, true};
ghost use Rattle.std.specs.FinMap as map;
ghost use Rattle.catalog.specs.CardKinds.{card_key};
ghost use Rattle.catalog.specs.declared.builder.CatalogError.TheVariants as catalog_error;
ghost use Rattle.catalog.specs.declared.card.CardKey.TheVariants as own_key;
ghost use Rattle.image_records.specs.declared.image_record.ImageRecord.TheVariants as says;
ghost use Rattle.loader.specs.Gathered.{gathered_database};
ghost use Rattle.loader.specs.Tables.{is_taken, no_tables, with_record};
ghost use Rattle.tpcc_model.specs.Database.{database};
ghost use Rattle.tpcc_rows.specs.RowKinds.{fits};

use crate::addition::{Addition, addition_of};
use crate::gathered::Gathered;
use crate::unpaged::UnpagedRows;
use catalog::Catalog;
use catalog::builder::{CatalogBuilder, CatalogError};
use catalog::card::{Card, DistrictCard};
use image_records::image_record::ImageRecord;
use std::alloc::Global;
use tpcc_rows::key::RowKey;
use tpcc_rows::memory::Memory;
use tpcc_rows::row::{DistrictNextRow, DistrictYtdRow, Row};

/// The cards and rows of the records read so far.
#[derive(Drop)]
pub struct GatheredTables {
    cards: CatalogBuilder,
    rows: Gathered,
    alloc: Global,
}

impl GatheredTables {
    /// No cards and no rows.
    pub fn new(alloc: Global) -> Result<GatheredTables, Memory>
        ensures { IfOk result (λ tables. gathered_database tables ≡ no_tables) }
    {
        Ok(GatheredTables {
            cards: CatalogBuilder::new(alloc),
            rows: Gathered::new(alloc)?,
            alloc,
        })
    }

    /// Adds a card and its row.
    fn add_both(&mut self, card: Card, key: RowKey, row: Row) -> Result<(), CatalogError>
        requires { fits key row ≡ true }
        ensures cards { OnOk result (self.new.cards ≡ map.insert self.old.cards (card_key card) card) }
        ensures rows { OnOk result (self.new.rows ≡ map.insert self.old.rows key row) }
        ensures fresh { OnOk result (map.get self.old.cards (card_key card) ≡ None) }
        ensures twice { IfErr result (λ e. e ≡ catalog_error.Twice
            → IsSome (map.get self.old.cards (card_key card))) }
    {
        self.cards.add(card)?;
        self.rows.put(key, row)?;
        Ok(())
    }

    /// Adds a district's card and its two rows.
    fn add_whole_district(
        &mut self,
        card: DistrictCard,
        ytd: DistrictYtdRow,
        next: DistrictNextRow,
    ) -> Result<(), CatalogError>
        ensures ok { OnOk result (gathered_database self.new ≡ with_record (gathered_database self.old) (says.WholeDistrict card ytd next)) }
        ensures fresh { OnOk result (map.get self.old.cards (own_key.District card.warehouse card.district) ≡ None) }
        ensures twice { IfErr result (λ e. e ≡ catalog_error.Twice
            → IsSome (map.get self.old.cards (own_key.District card.warehouse card.district))) }
    {
        let warehouse = card.warehouse;
        let district = card.district;
        let ytd_key = RowKey::DistrictYtd {
            warehouse,
            district,
        };
        let next_key = RowKey::DistrictNext {
            warehouse,
            district,
        };
        self.cards.add(Card::District(card))?;
        self.rows.put(ytd_key, Row::DistrictYtd(ytd))?;
        self.rows.put(next_key, Row::DistrictNext(next))?;
        Ok(())
    }

    /// Adds a row that has no card.
    fn add_row(&mut self, key: RowKey, row: Row) -> Result<(), CatalogError>
        requires { fits key row ≡ true }
        ensures cards { self.new.cards ≡ self.old.cards }
        ensures rows { OnOk result (self.new.rows ≡ map.insert self.old.rows key row) }
        ensures fresh { OnOk result (map.get self.old.rows key ≡ None) }
        ensures twice { IfErr result (λ e. e ≡ catalog_error.Twice → IsSome (map.get self.old.rows key)) }
    {
        if self.rows.put(key, row)? {
            return Err(CatalogError::Twice);
        }
        Ok(())
    }

    /// Adds a record's contents; `Twice` if its key came before. After an error the tables are useless.
    pub fn add(&mut self, said: ImageRecord) -> Result<(), CatalogError>
        ensures ok { OnOk result (gathered_database self.new ≡ with_record (gathered_database self.old) said) }
        ensures fresh { OnOk result (is_taken (gathered_database self.old) said ≡ false) }
        ensures twice { IfErr result (λ e. e ≡ catalog_error.Twice
            → is_taken (gathered_database self.old) said ≡ true) }
    {
        match addition_of(said) {
            Addition::Card(card) => self.cards.add(card),
            Addition::Row(key, row) => self.add_row(key, row),
            Addition::Both(card, key, row) => self.add_both(card, key, row),
            Addition::WholeDistrict(card, ytd, next) => self.add_whole_district(card, ytd, next),
        }
    }

    /// The catalog and the rows, unchecked.
    pub fn finish(self) -> Result<(Catalog, UnpagedRows), Memory>
        ensures { IfOk result (λ db. database db.0 db.1 ≡ gathered_database self) }
    {
        let GatheredTables { cards, rows, alloc } = self;
        let catalog = cards.finish(alloc)?;
        let rows = rows.into_rows(alloc)?;
        Ok((catalog, rows))
    }
}
