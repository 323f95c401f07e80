// Cell maps: which partition each setting's cell lies in.
#![tactic(auto)]

mod fault;
mod listed;
mod map;
mod partitions;
mod residue;

pub use fault::MapFault;
pub use listed::ListedMap;
pub use map::CellMap;
pub use residue::ResidueMap;

#[cfg(test)]
mod tests {
    use super::*;
    use std::test::Fail;

    #[test]
    fn partitions_15_are_taken_and_16_refused(rt: HostRuntime) -> Result<(), Fail> {
        let map = ResidueMap::new(15)?;
        assert_eq!(rt; map.partitions(), 15);
        let Err(fault) = ResidueMap::new(16) else {
            return Err(Fail::new("16 partitions were taken"));
        };
        assert_eq!(rt; fault, MapFault::PartitionCount(16));
        assert!(rt; ResidueMap::new(0).is_err());
        Ok(())
    }

    #[test]
    fn cell_1023_has_a_partition_and_1024_has_none(rt: HostRuntime) -> Result<(), Fail> {
        let residues = ResidueMap::new(4)?;
        assert_eq!(rt; residues.partition_of(1023), 4);
        assert_eq!(rt; residues.partition_of(1024), 0);
        let listed = ListedMap::new();
        assert_eq!(rt; listed.partition_of(1023), 1);
        assert_eq!(rt; listed.partition_of(1024), 0);
        Ok(())
    }

    #[test]
    fn a_refused_table_leaves_the_map_as_it_was(rt: HostRuntime) {
        let mut map = ListedMap::new();
        let mut table = [2u8; 1024];
        table[700] = 3;
        assert_eq!(rt;
            map.load(16, &table[0..10]),
            Err(MapFault::PartitionCount(16))
        );
        assert_eq!(rt;
            map.load(2, &table[0..1023]),
            Err(MapFault::TableLength(1023))
        );
        assert_eq!(rt; map.load(2, &table), Err(MapFault::Entry(700)));
        assert_eq!(rt; map.partition_of(700), 1);
        assert_eq!(rt; map.load(3, &table), Ok(()));
        assert_eq!(rt; map.partition_of(700), 3);
    }
}
